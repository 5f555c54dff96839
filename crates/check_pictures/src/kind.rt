// The kinds of calls, as the lines name them.

use std::fmt;

#[derive(Clone, Copy, PartialEq, Eq)]
pub enum Kind {
    New,
    Open,
    Row,
    Close,
}

impl fmt::Display for Kind {
    fn fmt<W: fmt::Write>(&self, f: &mut fmt::Formatter<W>) -> fmt::Result {
        match *self {
            Kind::New => write!(f, "new"),
            Kind::Open => write!(f, "open"),
            Kind::Row => write!(f, "row"),
            Kind::Close => write!(f, "close"),
        }
    }
}
