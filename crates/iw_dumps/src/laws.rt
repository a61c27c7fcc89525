//! Laws over all channels.

ghost use Rattle.std.specs.Prelude.{◌≡◌, ℕ};
ghost use Rattle.freq_range.specs.Channels.{IsChannel};
ghost use Rattle.freq_range.specs.declared.channel.Band.{Band};
ghost use Rattle.iw_dumps.specs.DumpTexts.{channel_number};

/// The number that is shown beside a channel is the one that the channel table gives it.
pub fn numbers_are_of_the_table()
    ensures { (band : Band) (n khz : ℕ) → IsChannel band n khz → channel_number khz ≡ n }
{}
