// The text of a generated line: a trade, which is an interval, or a punctuation.
ghost use Rattle.std.specs.Prelude.{◌≡◌, ◌≤◌, OnOk, length};
ghost use Rattle.sample_trades.specs.Lines.{line_of, trade_text};

use crate::pieces::write_pieces;
use itoa::Buffer;
use tw_rows::Memory;

/// An event of a generated line: a trade of so many shares of a symbol, which stands as its number, at a price.
#[derive(Clone, Copy, Debug, PartialEq, Eq)]
pub struct Trade {
    pub id: u64,
    pub start: u64,
    pub end: u64,
    pub symbol: u32,
    pub price: u32,
    pub quantity: u32,
}

/// What a generated line says.
#[derive(Clone, Copy, Debug, PartialEq, Eq)]
pub enum SampleLine {
    Traded(Trade),
    Punctuated { time: u64 },
}

// Writes the interval of a trade.
fn write_trade(trade: Trade, text: &mut Vec<u8>) -> Result<(), Memory>
    ensures text { OnOk result (text.new.items ≡ trade_text trade) }
    ensures short { OnOk result (length text.new.items ≤ 300) }
{
    let mut start = Buffer::new();
    let mut end = Buffer::new();
    let mut id = Buffer::new();
    let mut symbol = Buffer::new();
    let mut price = Buffer::new();
    let mut quantity = Buffer::new();
    write_pieces(
        text,
        &[
            b"trades,interval,".as_slice(),
            start.format(trade.start).as_bytes(),
            b",",
            end.format(trade.end).as_bytes(),
            b",",
            id.format(trade.id).as_bytes(),
            b",S",
            symbol.format(trade.symbol).as_bytes(),
            b",",
            price.format(trade.price).as_bytes(),
            b",",
            quantity.format(trade.quantity).as_bytes(),
        ],
    )
}

// Writes the punctuation of all streams at the time.
fn write_punctuation(time: u64, text: &mut Vec<u8>) -> Result<(), Memory>
    ensures text { OnOk result (text.new.items ≡ line_of (SampleLine.Punctuated time)) }
    ensures short { OnOk result (length text.new.items ≤ 300) }
{
    let mut number = Buffer::new();
    write_pieces(
        text,
        &[b"*,punct,".as_slice(), number.format(time).as_bytes()],
    )
}

impl SampleLine {
    /// Writes the line, without its line feed, in place of what the text held. Out of memory the text holds some of it.
    pub fn write(&self, text: &mut Vec<u8>) -> Result<(), Memory>
        ensures text { OnOk result (text.new.items ≡ line_of self.now) }
        ensures short { OnOk result (length text.new.items ≤ 300) }
    {
        match self {
            SampleLine::Traded(trade) => write_trade(*trade, text),
            SampleLine::Punctuated { time } => write_punctuation(*time, text),
        }
    }
}
