// Why bytes are no list, in words.
use crate::{Fault, Item, MOST_BYTES, Why};
use std::fmt;

impl fmt::Display for Item {
    fn fmt<W: fmt::Write>(&self, f: &mut fmt::Formatter<W>) -> fmt::Result {
        f.write_str(match self {
            Item::Format => "format number",
            Item::Cases => "number of cases",
            Item::Tag => "tag",
            Item::Width => "width mode",
            Item::Moving => "moving range or not",
            Item::Stops => "number of stops",
            Item::Stop => "stop",
            Item::Kind => "kind",
            Item::Size => "size",
            Item::Set => "set",
            Item::Limit => "limit",
            Item::Centre => "centre",
            Item::Room => "length of a slice",
            Item::Count => "number of values",
            Item::Samples => "number of samples",
            Item::Value => "value",
            Item::Answer => "answer",
            Item::Flow => "flow file",
            Item::Text => "report",
            Item::End => "end",
        })
    }
}

impl fmt::Display for Why {
    fn fmt<W: fmt::Write>(&self, f: &mut fmt::Formatter<W>) -> fmt::Result {
        match self {
            Why::Cut => write!(f, ": the bytes end before it does"),
            Why::Form => write!(f, " is longer than its shortest form or over 64 bits"),
            Why::Range { value, low, high } if low < high => {
                write!(f, " is {value}, not {low} to {high}")
            }
            Why::Range {
                value,
                low,
                high: _,
            } => write!(f, " is {value}, not {low}"),
            Why::Unlisted { value } => write!(f, " is {value}, which no list has there"),
            Why::NotFinite => write!(f, " is not finite"),
            Why::LeftOver => write!(f, ": bytes are left over"),
            Why::TooLong => write!(f, ": a list has at most {MOST_BYTES} bytes"),
        }
    }
}

impl fmt::Display for Fault {
    fn fmt<W: fmt::Write>(&self, f: &mut fmt::Formatter<W>) -> fmt::Result {
        let Fault { at, item, why } = self;
        write!(f, "no list: at byte {at}, {item}{why}")
    }
}
