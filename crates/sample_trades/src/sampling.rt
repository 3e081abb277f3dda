// The trades drawn from a seed, and the lines that they give, one after the other.
ghost use Rattle.std.specs.Prelude.{◌≡◌, ◌≤◌, ◌<◌, ◌+◌, ◌*◌, ◌∷◌, [], IfSome, IfNone, length};
ghost use Rattle.sample_trades.specs.Words.{word_of, words_after, words_of};

use crate::line::{SampleLine, Trade};
use rand_core::utils::NextWord;
use rand_pcg::Lcg64Xsh32;

/// The lines of a sample that are still to come.
#[derive(Drop)]
pub struct Sample {
    words: Lcg64Xsh32,
    time: u64,
    trades: u64,
    left: u64,
    due: bool,
    ghost few: { trades + left ≤ 1000000 },
    ghost slow: { time ≤ 3 * trades },
}

fn draw(words: &mut Lcg64Xsh32) -> u32
    ensures word { result ≡ word_of words.old }
    ensures after { words.new ≡ words_after words.old }
{
    words.next_word()
}

fn words_from(number: u64) -> Lcg64Xsh32
    ensures { result ≡ words_of number }
{
    Lcg64Xsh32::new(number, 0)
}

impl Sample {
    ghost use Rattle.sample_trades.specs.Trades.{after_trade, sample, trade_of};
    ghost use Rattle.sample_trades.specs.ToCome.{draws, to_come};

    /// The lines of so many trades, drawn from the number as the seed.
    pub fn new(number: u64, events: u64) -> Sample
        requires { events ≤ 1000000 }
        ensures lines { to_come result ≡ sample number events }
        ensures few { length (to_come result) ≤ 2 * events }
    {
        Sample {
            words: words_from(number),
            time: 0,
            trades: 0,
            left: events,
            due: false,
        }
    }

    // Four words are drawn for a trade: how much later it starts, how long it lasts, its symbol, and its price and quantity.
    fn draw_trade(&mut self) -> Trade
        requires { 0 < self.old.left }
        ensures trade { result ≡ trade_of (draws self.old) }
        ensures after { draws self.new ≡ after_trade (draws self.old) }
        ensures left { self.old.left ≡ self.new.left + 1 }
    {
        let step = draw(&mut self.words);
        let length = draw(&mut self.words);
        let symbol = draw(&mut self.words);
        let price = draw(&mut self.words);
        let start = self.time + 1 + (step % 3) as u64;
        let trade = Trade {
            id: self.trades,
            start,
            end: start + 1 + (length % 20) as u64,
            symbol: symbol % 5,
            price: 100 + price % 50,
            quantity: 1 + price / 64 % 10,
        };
        self.left -= 1;
        self.trades += 1;
        self.time = start;
        trade
    }

    /// The next line. At the end there is none, and none follows.
    pub fn next_line(&mut self) -> Option<SampleLine>
        ensures given { IfSome result (λ line. to_come self.old ≡ line ∷ to_come self.new) }
        ensures none { IfNone result (to_come self.old ≡ []) }
        ensures end { IfNone result (self.new ≡ self.old) }
    {
        if self.due {
            self.due = false;
            return Some(SampleLine::Punctuated { time: self.time });
        }
        if self.left == 0 {
            return None;
        }
        let trade = self.draw_trade();
        self.due = self.trades % 100 == 0;
        Some(SampleLine::Traded(trade))
    }
}
