//! Reads the words behind a power.

ghost use Rattle.std.specs.Prelude.{◌≡◌, MatchOption, Some};
ghost use Rattle.std.specs.List.{list_all};
ghost use Rattle.text_lines.specs.inner.Reading.{flag_of, gather, gather_word, gathered, nothing_gathered, parts_of, is_kept, is_wmm_name, is_name_byte, word_of, word_read, words_at};
ghost use Rattle.text_lines.specs.Spelling.{with_flag};

use crate::form::Flag;
use crate::scanner::{after_word, cut_at, is_word};
use freq_range::RuleFlags;

/// The most bytes that a name may have.
const MOST_NAME_BYTES: usize = 64;

/// A word: a flag, or the name of a WMM rule.
#[derive(Clone, Copy)]
enum Word<'a> {
    Flag(Flag),
    Name(&'a [u8]),
}

/// What words say together.
#[derive(Clone, Copy)]
pub struct RuleWords<'a> {
    pub flags: RuleFlags,
    /// The name of the WMM rule.
    pub name: Option<&'a [u8]>,
    /// Whether a file of version 20 has a bit for each flag.
    pub is_kept: bool,
}

impl RuleWords<'_> {
    /// No word.
    const NOTHING: RuleWords<'static> = RuleWords {
        flags: RuleFlags::NONE,
        name: None,
        is_kept: true,
    };
}

/// Whether the byte may stand in a name.
fn is_name_byte(byte: u8) -> bool
    ensures { result ≡ is_name_byte byte }
{
    byte.is_ascii_uppercase()
        || byte.is_ascii_lowercase()
        || byte.is_ascii_digit()
        || byte == b'_'
        || byte == b'-'
}

/// Whether each byte may stand in a name.
fn are_name_bytes(bytes: &[u8]) -> bool
    ensures { result ≡ list_all is_name_byte bytes.now }
{
    bytes.iter().all(|byte| is_name_byte(*byte))
}

/// Whether the bytes are a name of a WMM rule.
pub fn is_name(name: &[u8]) -> bool
    ensures { result ≡ is_wmm_name name.now }
{
    !name.is_empty() && name.len() <= MOST_NAME_BYTES && are_name_bytes(name)
}

/// The flag of that name.
#[tactic(auto, unfolding(crate::specs::inner::Reading::flag_of))]
fn flag_of(part: &[u8]) -> Option<Flag>
    ensures { MatchOption result (flag_of part.now ≡ None) (λ flag. flag_of part.now ≡ Some flag) }
{
    if is_word(part, b"NO-OFDM") {
        Some(Flag::NoOfdm)
    } else if is_word(part, b"NO-OUTDOOR") {
        Some(Flag::NoOutdoor)
    } else if is_word(part, b"DFS") {
        Some(Flag::Dfs)
    } else if is_word(part, b"NO-IR") {
        Some(Flag::NoIr)
    } else if is_word(part, b"AUTO-BW") {
        Some(Flag::AutoBw)
    } else if is_word(part, b"NO-CCK") {
        Some(Flag::NoCck)
    } else if is_word(part, b"NO-INDOOR") {
        Some(Flag::NoIndoor)
    } else if is_word(part, b"PTP-ONLY") {
        Some(Flag::PtpOnly)
    } else if is_word(part, b"PTMP-ONLY") {
        Some(Flag::PtmpOnly)
    } else {
        None
    }
}

/// The word that the part is.
#[tactic(auto, unfolding(crate::specs::inner::Reading::word_of))]
fn word_of(part: &[u8]) -> Option<Word<'_>>
    ensures { MatchOption result (word_of part.now ≡ None) (λ word. word_of part.now ≡ Some (word_read word)) }
{
    if let Some(flag) = flag_of(part) {
        return Some(Word::Flag(flag));
    }
    let name = after_word(part, b"wmmrule=")?;
    if is_name(name) {
        Some(Word::Name(name))
    } else {
        None
    }
}

/// Whether a file of version 20 has a bit for the flag.
fn is_kept(flag: Flag) -> bool
    ensures { result ≡ is_kept flag }
{
    match flag {
        Flag::NoOfdm | Flag::NoOutdoor | Flag::Dfs | Flag::NoIr | Flag::AutoBw => true,
        Flag::NoCck | Flag::NoIndoor | Flag::PtpOnly | Flag::PtmpOnly => false,
    }
}

/// The flags, and this one where it is kept.
fn with_flag(flag: Flag, flags: RuleFlags) -> RuleFlags
    ensures { result ≡ with_flag flag flags }
{
    match flag {
        Flag::NoOfdm => RuleFlags {
            no_ofdm: true,
            ..flags
        },
        Flag::NoOutdoor => RuleFlags {
            no_outdoor: true,
            ..flags
        },
        Flag::Dfs => RuleFlags { dfs: true, ..flags },
        Flag::NoIr => RuleFlags {
            no_ir: true,
            ..flags
        },
        Flag::AutoBw => RuleFlags {
            auto_bw: true,
            ..flags
        },
        Flag::NoCck | Flag::NoIndoor | Flag::PtpOnly | Flag::PtmpOnly => flags,
    }
}

/// What the words say with one more, or `None` where it is a second name.
#[tactic(auto, unfolding(crate::specs::inner::Reading::gather_word))]
fn gather_word<'a>(word: Word<'a>, words: RuleWords<'a>) -> Option<RuleWords<'a>>
    ensures { MatchOption result (gather_word (word_read word.entry) (gathered words.entry) ≡ None)
        (λ more. gather_word (word_read word.entry) (gathered words.entry) ≡ Some (gathered more)) }
{
    match word {
        Word::Flag(flag) => Some(RuleWords {
            flags: with_flag(flag, words.flags),
            name: words.name,
            is_kept: words.is_kept && is_kept(flag),
        }),
        Word::Name(name) => match words.name {
            Some(_) => None,
            None => Some(RuleWords {
                flags: words.flags,
                name: Some(name),
                is_kept: words.is_kept,
            }),
        },
    }
}

/// What the words of a list say, which are parted by commas.
fn gather(list: &[u8]) -> Option<RuleWords<'_>>
    ensures { MatchOption result (gather nothing_gathered (parts_of 44 (Some list.now)) ≡ None)
        (λ words. gather nothing_gathered (parts_of 44 (Some list.now)) ≡ Some (gathered words)) }
{
    let mut words = RuleWords::NOTHING;
    let mut left = Some(list);
    while let Some(text) = left {
        let (part, rest) = cut_at(text, b',');
        let word = word_of(part)?;
        words = gather_word(word, words)?;
        left = rest;
    }
    Some(words)
}

/// What the words say, each of which stands behind a comma.
#[tactic(auto, unfolding(crate::specs::inner::Reading::words_at, crate::specs::inner::Reading::after_byte))]
pub fn words_at(bytes: &[u8]) -> Option<RuleWords<'_>>
    ensures { MatchOption result (words_at bytes.now ≡ None) (λ words. words_at bytes.now ≡ Some (gathered words)) }
{
    match bytes {
        [] => Some(RuleWords::NOTHING),
        [first, list @ ..] if *first == b',' => gather(list),
        _ => None,
    }
}
