// Correction rates: document 01, "Adjustment".

#![tactic(auto)]

ghost use Rattle.std.specs.Prelude.{◌≡◌, nat_abs, ◌-◌, ◌*◌, ◌≤◌, ◌<◌, ◌^◌, length, OnOk, IfErr};
ghost use Rattle.book.specs.Line.{line_words};
ghost use Rattle.book.specs.Refusals.{told_of, place_of};
ghost use Rattle.book.specs.Test.{refusal};
ghost use Rattle.book.specs.Good.{GoodLine, Lines};
ghost use Rattle.fields.specs.Heights.{Working};
ghost use Rattle.rates.specs.Rates.{quotient, row_of, answer_of, first_high, OfBook, correction_of, line_rate, good_rate};

use book::Book;
use book::height::Height;
use book::line::{Line, line_of};
use book::refusal::Refusal;

// A line's answer: its rate in micrometres per metre, which are mm per km, or that the line is withdrawn.
// An enum of its own: document 01, "What form each place needs".
#[derive(Drop)]
pub enum Rate {
    PerKm(f64),
    Withdrawn,
}

// What a row for printing carries.
#[derive(Drop)]
pub struct RateRow {
    pub line: usize,
    pub correction: i64,
    pub rate: f64,
}

// What the call answers: the line, its correction, and its rate or that it is withdrawn.
#[derive(Drop)]
pub struct LineRate {
    pub line: usize,
    pub correction: i64,
    pub rate: Rate,
}

// Both numbers are below 2 to the 53rd, so that the casts are exact; the quotient is rounded once.
fn per_km(correction: i64, length: i64) -> f64
    requires correction { nat_abs correction < 2 ^ 53 }
    requires length { nat_abs length < 2 ^ 53 }
    ensures { result ≡ quotient correction length }
{
    correction as f64 / length as f64
}

// The row of a line for printing: of a withdrawn line the correction and the rate are 0.
pub fn row_of(line: usize, correction: i64, rate: Rate) -> RateRow
    ensures { result ≡ row_of line correction rate }
{
    match rate {
        Rate::PerKm(x) => RateRow {
            line,
            correction,
            rate: x,
        },
        Rate::Withdrawn => RateRow {
            line,
            correction: 0,
            rate: 0.0,
        },
    }
}

// Refusal 13, at the lowest mark whose lent height is outside its limit.
fn test_heights(heights: &[i64]) -> Result<(), Refusal>
    ensures inside { OnOk result (first_high heights.now ≡ 0) }
    ensures outside { IfErr result (λ r. told_of r ≡ refusal 13 (first_high heights.now)) }
    ensures at { IfErr result (λ r. 0 < place_of r) }
{
    for i in 0..heights.len() {
        Height::in_work(heights[i], i + 1)?;
    }
    Ok(())
}

// Adjusted minus observed difference of a line.
fn correction_of(line: Line, heights: &[i64], b: usize) -> i64
    requires of_book { OfBook b line }
    requires working { Working heights.now b }
    ensures { (result ≡ correction_of heights.now line) × (nat_abs result < 2 ^ 53) }
{
    let to = signed::index(line.to);
    let from = signed::index(line.from);
    let adjusted = signed::sub(heights[to - 1], heights[from - 1]);
    signed::sub(adjusted, line.difference)
}

// The answer of a line that there is.
fn line_rate(lines: &[i64], heights: &[i64], b: usize, line: usize) -> Result<LineRate, Refusal>
    requires a_line { 0 < line }
    requires within { line * line_words ≤ length lines.now }
    requires good { GoodLine b lines.now (line - 1) }
    requires heights { Working heights.now b }
    ensures { answer_of result ≡ line_rate heights.now lines.now line (line - 1) }
{
    let at = (line - 1) * Line::WORDS;
    let made = line_of(&lines[at..at + Line::WORDS], signed::signed_count(b));
    // A tested book has no line that is refused.
    let Ok(its) = made else {
        return Err(Refusal::Line(line));
    };
    if signed::same(its.standing, 0) {
        return Ok(LineRate {
            line,
            correction: 0,
            rate: Rate::Withdrawn,
        });
    }
    let correction = correction_of(its, heights, b);
    let rate = per_km(correction, its.length);
    Ok(LineRate {
        line,
        correction,
        rate: Rate::PerKm(rate),
    })
}

// The answer for a book that has passed its test: 8, then 13.
pub fn good_rate(lines: &[i64], heights: &[i64], book: Book, line: i64) -> Result<LineRate, Refusal>
    requires lines { Lines lines.now book.marks book.lines }
    requires heights { length heights.now ≡ book.marks }
    ensures { answer_of result ≡ good_rate heights.now lines.now book line }
{
    if signed::outside(line, 1, signed::signed_count(book.lines)) {
        return Err(Refusal::NotThere);
    }
    test_heights(heights)?;
    line_rate(lines, heights, book.marks, signed::index(line))
}
