//! The words of iw for the channel round a control channel.

ghost use Rattle.std.specs.Prelude.{◌≡◌, ℕ, ◌^◌, ◌<◌, Contains, MatchOption, IfSome};
ghost use Rattle.chan_def.specs.Covered.{IsInside};
ghost use Rattle.chan_def.specs.Words.{spelling, width_of, GivesCentre, IsNamedBy};
ghost use Rattle.chan_def.specs.declared.definition.ChanDef.{ChanDef};
ghost use Rattle.chan_def.specs.declared.iw_word.IwWord.{IwWord};

use crate::definition::{ChanDef, is_inside};
use crate::width::Width;

/// The centres, in kHz, of the blocks of 80 MHz.
const BLOCKS_80: [u32; 6] = [
    5_210_000, 5_290_000, 5_530_000, 5_610_000, 5_690_000, 5_775_000,
];

/// The centres, in kHz, of the blocks of 160 MHz.
const BLOCKS_160: [u32; 2] = [5_250_000, 5_570_000];

/// A word of iw for the channel round a control channel.
#[derive(Clone, Copy)]
pub enum IwWord {
    /// `NOHT`
    WithoutHt,
    /// `HT20`
    Ht20,
    /// `HT40+`: the control channel is the lower half.
    Ht40Plus,
    /// `HT40-`: the control channel is the upper half.
    Ht40Minus,
    /// `80MHz`
    Vht80,
    /// `160MHz`
    Vht160,
}

/// The channel that a word of iw gives a control channel. `None` exactly where the word is none of
/// them, no block covers the control channel, or the centre would not be a `u32`.
pub fn from_iw_word(control_khz: u32, word: &str) -> Option<ChanDef>
    ensures named { MatchOption result ((c : ChanDef) → IsNamedBy control_khz word.now c → ⊥)
        (λ c. IsNamedBy control_khz word.now c) }
    ensures only { IfSome result (λ c. (other : ChanDef) → IsNamedBy control_khz word.now other → other ≡ c) }
{
    let word = word_of(word)?;
    let centre_khz = centre_by(word, control_khz)?;
    Some(ChanDef {
        control_khz,
        width: width_of(word),
        centre_khz,
    })
}

/// The word that is spelled so.
fn word_of(text: &str) -> Option<IwWord>
    ensures { MatchOption result ((word : IwWord) → text.now ≡ spelling word → ⊥)
        (λ word. text.now ≡ spelling word) }
{
    match text {
        "NOHT" => Some(IwWord::WithoutHt),
        "HT20" => Some(IwWord::Ht20),
        "HT40+" => Some(IwWord::Ht40Plus),
        "HT40-" => Some(IwWord::Ht40Minus),
        "80MHz" => Some(IwWord::Vht80),
        "160MHz" => Some(IwWord::Vht160),
        _ => None,
    }
}

/// The width of the channel.
fn width_of(word: IwWord) -> Width
    ensures { result ≡ width_of word }
{
    match word {
        IwWord::WithoutHt => Width::Noht,
        IwWord::Ht20 => Width::W20,
        IwWord::Ht40Plus | IwWord::Ht40Minus => Width::W40,
        IwWord::Vht80 => Width::W80,
        IwWord::Vht160 => Width::W160,
    }
}

/// The centre of the channel, in kHz.
fn centre_by(word: IwWord, control_khz: u32) -> Option<u32>
    ensures { MatchOption result ((centre : ℕ) → GivesCentre word control_khz centre → ⊥)
        (λ centre. GivesCentre word control_khz centre) }
{
    match word {
        IwWord::WithoutHt | IwWord::Ht20 => Some(control_khz),
        IwWord::Ht40Plus => control_khz.checked_add(10_000),
        IwWord::Ht40Minus => control_khz.checked_sub(10_000),
        IwWord::Vht80 => block_round(&BLOCKS_80, 80_000, control_khz),
        IwWord::Vht160 => block_round(&BLOCKS_160, 160_000, control_khz),
    }
}

/// The centre of the block that covers the control channel, all in kHz.
fn block_round(blocks: &[u32], width_khz: u32, control_khz: u32) -> Option<u32>
    ensures covering { MatchOption result
        ((centre : ℕ) → Contains blocks.now centre → IsInside width_khz centre control_khz → ⊥)
        (λ centre. Contains blocks.now centre × IsInside width_khz centre control_khz) }
    ensures fits { IfSome result (λ centre. centre < 2 ^ 32) }
{
    for block in blocks {
        if is_inside(width_khz, *block, control_khz) {
            return Some(*block);
        }
    }
    None
}
