//! Lists of replies that grow.

use crate::report::Section;
use chan_def::Kind;
use chan_flags::Chan;
use dfs_states::Dfs;
use radio_drv::{IfIndex, Name};
use reg_lists::Seq;
use rule_intersect::Row;

/// A list of rows.
pub type RowList = Seq<Row>;

/// A list of sections.
pub type SectionList = Seq<Section>;

/// A list of channels with their states.
pub type ChanList = Seq<(Chan, Dfs)>;

/// A list of interfaces: name, index and kind.
pub type IfaceList = Seq<(Name, IfIndex, Kind)>;
