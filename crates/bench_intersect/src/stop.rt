//! Why nothing was timed.

use db_text::ParseFault;
use rule_intersect::ResolveFault;
use rule_tables::DomainFault;
use std::io;

/// The words, the text or its tables are no good, or no memory was found.
#[derive(Clone, Copy, Debug)]
pub(crate) struct Stop;

impl From<io::Error> for Stop {
    fn from(_error: io::Error) -> Stop {
        Stop
    }
}

impl From<ParseFault> for Stop {
    fn from(_fault: ParseFault) -> Stop {
        Stop
    }
}

impl From<DomainFault> for Stop {
    fn from(_fault: DomainFault) -> Stop {
        Stop
    }
}

impl From<ResolveFault> for Stop {
    fn from(_fault: ResolveFault) -> Stop {
        Stop
    }
}
