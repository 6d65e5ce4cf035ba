// The calls of the C interface, which level_c exports and include/level.h declares: thin functions over the public calls, each with the
// whole contract of the call below it, its numbers as int64.

#![tactic(auto)]

ghost use Rattle.std.specs.Prelude.{◌≡◌, Ok};
ghost use Rattle.book.specs.Lent.{lent};
ghost use Rattle.file.specs.Read.{read_of};
ghost use Rattle.writer.specs.Write.{write_of};
ghost use Rattle.survey.specs.Survey.{survey_of};
ghost use Rattle.survey.specs.Correction.{rerun_of, withdraw_of};
ghost use Rattle.rates.specs.Rates.{rate_answer};
ghost use Rattle.book.specs.Refusals.{told_of};
ghost use Rattle.file.specs.Read as file;
ghost use Rattle.writer.specs.Write as writer;
ghost use Rattle.survey.specs.Report as survey;
ghost use Rattle.lists.specs.Listing as lists;
ghost use Rattle.junctions.specs.Call as sketch;
ghost use Rattle.adjust.specs.Answers as adjust;
ghost use Rattle.rates.specs.Rates as rates;
ghost use Rattle.level.specs.Signed.{Small, SmallRefusal, signed_refusal, SmallRead, signed_read, read_now, of_read};
ghost use Rattle.level.specs.Writings.{SmallWritten, signed_written, writing_now, of_writing};
ghost use Rattle.level.specs.Answers.{SmallAnswer, signed_answer, survey_now, of_survey, correction_now, of_correction};
ghost use Rattle.lists.specs.Listing.{listing_of, listings_of};
ghost use Rattle.lists.specs.NotChecked.{not_checked_of};
ghost use Rattle.adjust.specs.Call.{adjust_of};
ghost use Rattle.level.specs.Listings.{SmallListed, signed_listed, listing_now, of_listing};
ghost use Rattle.level.specs.Heights.{SmallAdjusted, signed_adjusted, adjust_now, of_adjust};
ghost use Rattle.level.specs.Rating.{SmallRate, signed_rate};
ghost use Rattle.junctions.specs.Call.{lists, sketch_call};
ghost use Rattle.level.specs.Sketches.{SmallSketched, signed_sketched, sketch_now, of_sketch};

use book::Book;
use book::refusal::Refusal;
use junctions::Sizes;
use rates::{LineRate, Rate};
use table::Found;

// A refusal, its numbers as C has them.
#[derive(Drop)]
pub struct SignedRefusal {
    pub number: i64,
    pub place: i64,
}

fn signed_refusal(r: Refusal) -> SignedRefusal
    requires { SmallRefusal (told_of r) }
    ensures { result ≡ signed_refusal (told_of r) }
{
    SignedRefusal {
        number: signed::signed_count(r.number()),
        place: signed::signed_count(r.place()),
    }
}

// What the reader answers.
#[repr(C)]
#[derive(Drop)]
pub struct ReadAnswer {
    pub number: i64,
    pub place: i64,
    pub version: i64,
    pub b: i64,
    pub t: i64,
    pub h: i64,
    pub n: i64,
}

fn read_answer(a: Result<Book, Refusal>) -> ReadAnswer
    requires { SmallRead (file.answer_of a) }
    ensures { result ≡ signed_read (file.answer_of a) }
{
    match a {
        Ok(book) => ReadAnswer {
            number: 0,
            place: 0,
            version: signed::signed_count(book.version),
            b: signed::signed_count(book.marks),
            t: signed::signed_count(book.tolerance),
            h: signed::signed_count(book.held),
            n: signed::signed_count(book.lines),
        },
        Err(r) => {
            let r = signed_refusal(r);
            ReadAnswer {
                number: r.number,
                place: r.place,
                version: 0,
                b: 0,
                t: 0,
                h: 0,
                n: 0,
            }
        }
    }
}

#[unsafe(no_mangle)]
pub extern "C" fn level_read(file: &[u8], held: &mut [i64], lines: &mut [i64]) -> ReadAnswer
    ensures { read_now result held.new lines.new
        ≡ of_read (read_of file.now held.old lines.old) }
{
    read_answer(file::read(file, held, lines))
}

// What the writer answers.
#[repr(C)]
#[derive(Drop)]
pub struct Written {
    pub number: i64,
    pub place: i64,
    pub bytes: i64,
}

fn write_answer(a: Result<usize, Refusal>) -> Written
    requires { SmallWritten (writer.answer_of a) }
    ensures { result ≡ signed_written (writer.answer_of a) }
{
    match a {
        Ok(bytes) => Written {
            number: 0,
            place: 0,
            bytes: signed::signed_count(bytes),
        },
        Err(r) => {
            let r = signed_refusal(r);
            Written {
                number: r.number,
                place: r.place,
                bytes: 0,
            }
        }
    }
}

#[unsafe(no_mangle)]
pub extern "C" fn level_write(
    version: i64,
    b: i64,
    t: i64,
    held: &[i64],
    lines: &[i64],
    file: &mut [u8],
) -> Written
    ensures { writing_now result file.new
        ≡ of_writing (write_of (lent version b t held.now lines.now) file.old) }
{
    write_answer(writer::write(version, b, t, held, lines, file))
}

// What survey, re-run and withdrawal answer.
#[repr(C)]
#[derive(Drop)]
pub struct Answer {
    pub number: i64,
    pub place: i64,
    pub rows: i64,
    pub pieces: i64,
}

fn survey_answer(a: Result<Found, Refusal>) -> Answer
    requires { SmallAnswer (survey.answer_of a) }
    ensures { result ≡ signed_answer (survey.answer_of a) }
{
    match a {
        Ok(found) => Answer {
            number: 0,
            place: 0,
            rows: signed::signed_count(found.count),
            pieces: signed::signed_count(found.pieces),
        },
        Err(r) => {
            let r = signed_refusal(r);
            Answer {
                number: r.number,
                place: r.place,
                rows: 0,
                pieces: 0,
            }
        }
    }
}

#[unsafe(no_mangle)]
pub extern "C" fn level_survey(
    version: i64,
    b: i64,
    t: i64,
    held: &[i64],
    lines: &[i64],
    rows: &mut [i64],
) -> Answer
    ensures { survey_now result rows.new
        ≡ of_survey (survey_of (lent version b t held.now lines.now) rows.old) }
{
    survey_answer(survey::survey(version, b, t, held, lines, rows))
}

#[unsafe(no_mangle)]
pub extern "C" fn level_rerun(
    version: i64,
    b: i64,
    t: i64,
    held: &[i64],
    lines: &mut [i64],
    report: &mut [i64],
    line: i64,
    difference: i64,
) -> Answer
    ensures { correction_now result lines.new report.new
        ≡ of_correction (rerun_of (lent version b t held.now lines.old) report.old line difference) }
{
    survey_answer(survey::rerun(version, b, t, held, lines, report, line, difference))
}

#[unsafe(no_mangle)]
pub extern "C" fn level_withdraw(
    version: i64,
    b: i64,
    t: i64,
    held: &[i64],
    lines: &mut [i64],
    report: &mut [i64],
    line: i64,
) -> Answer
    ensures { correction_now result lines.new report.new
        ≡ of_correction (withdraw_of (lent version b t held.now lines.old) report.old line) }
{
    survey_answer(survey::withdraw(version, b, t, held, lines, report, line))
}

// What the two listings answer.
#[repr(C)]
#[derive(Drop)]
pub struct Listed {
    pub number: i64,
    pub place: i64,
    pub entries: i64,
}

fn listing_answer(a: Result<usize, Refusal>) -> Listed
    requires { SmallListed (lists.answer_of a) }
    ensures { result ≡ signed_listed (lists.answer_of a) }
{
    match a {
        Ok(entries) => Listed {
            number: 0,
            place: 0,
            entries: signed::signed_count(entries),
        },
        Err(r) => {
            let r = signed_refusal(r);
            Listed {
                number: r.number,
                place: r.place,
                entries: 0,
            }
        }
    }
}

#[unsafe(no_mangle)]
pub extern "C" fn level_listing(
    version: i64,
    b: i64,
    t: i64,
    held: &[i64],
    lines: &[i64],
    number: i64,
    out: &mut [i64],
) -> Listed
    ensures { listing_now result out.new
        ≡ of_listing (listing_of (lent version b t held.now lines.now) number out.old) }
{
    listing_answer(lists::listing(version, b, t, held, lines, number, out))
}

#[unsafe(no_mangle)]
pub extern "C" fn level_listings(
    version: i64,
    b: i64,
    t: i64,
    held: &[i64],
    lines: &[i64],
    out: &mut [i64],
) -> Listed
    ensures { listing_now result out.new
        ≡ of_listing (listings_of (lent version b t held.now lines.now) out.old) }
{
    listing_answer(lists::listings(version, b, t, held, lines, out))
}

#[unsafe(no_mangle)]
pub extern "C" fn level_not_checked(
    version: i64,
    b: i64,
    t: i64,
    held: &[i64],
    lines: &[i64],
    out: &mut [i64],
) -> Listed
    ensures { listing_now result out.new
        ≡ of_listing (not_checked_of (lent version b t held.now lines.now) out.old) }
{
    listing_answer(lists::not_checked(version, b, t, held, lines, out))
}

// What the sketch answers.
#[repr(C)]
#[derive(Drop)]
pub struct Sketched {
    pub number: i64,
    pub place: i64,
    pub links: i64,
    pub spurs: i64,
    pub loops: i64,
    pub run: i64,
}

fn sketch_answer(a: Result<Sizes, Refusal>) -> Sketched
    requires { SmallSketched (sketch.answer_of a) }
    ensures { result ≡ signed_sketched (sketch.answer_of a) }
{
    match a {
        Ok(sizes) => Sketched {
            number: 0,
            place: 0,
            links: signed::signed_count(sizes.links),
            spurs: signed::signed_count(sizes.spurs),
            loops: signed::signed_count(sizes.loops),
            run: signed::signed_count(sizes.run),
        },
        Err(r) => {
            let r = signed_refusal(r);
            Sketched {
                number: r.number,
                place: r.place,
                links: 0,
                spurs: 0,
                loops: 0,
                run: 0,
            }
        }
    }
}

#[unsafe(no_mangle)]
pub extern "C" fn level_sketch(
    version: i64,
    b: i64,
    t: i64,
    held: &[i64],
    lines: &[i64],
    links: &mut [i64],
    spurs: &mut [i64],
    loops: &mut [i64],
    run: &mut [i64],
) -> Sketched
    ensures { sketch_now result (lists links.new spurs.new loops.new run.new)
        ≡ of_sketch (sketch_call (lent version b t held.now lines.now)
        (lists links.old spurs.old loops.old run.old)) }
{
    sketch_answer(junctions::sketch(version, b, t, held, lines, links, spurs, loops, run))
}

// What the adjustment answers.
#[repr(C)]
#[derive(Drop)]
pub struct Adjusted {
    pub number: i64,
    pub place: i64,
    pub sweeps: i64,
}

fn adjust_answer(a: Result<usize, Refusal>) -> Adjusted
    requires { SmallAdjusted (adjust.answer_by a) }
    ensures { result ≡ signed_adjusted (adjust.answer_by a) }
{
    match a {
        Ok(sweeps) => Adjusted {
            number: 0,
            place: 0,
            sweeps: signed::signed_count(sweeps),
        },
        Err(r) => {
            let r = signed_refusal(r);
            Adjusted {
                number: r.number,
                place: r.place,
                sweeps: 0,
            }
        }
    }
}

#[unsafe(no_mangle)]
pub extern "C" fn level_adjust(
    version: i64,
    b: i64,
    t: i64,
    held: &[i64],
    lines: &[i64],
    heights: &mut [i64],
) -> Adjusted
    ensures { adjust_now result heights.new
        ≡ of_adjust (adjust_of (lent version b t held.now lines.now) heights.old) }
{
    adjust_answer(adjust::adjust(version, b, t, held, lines, heights))
}

// What the rate call answers: withdrawn is 1 of a withdrawn line, else 0.
#[repr(C)]
#[derive(Drop)]
pub struct Rated {
    pub number: i64,
    pub place: i64,
    pub line: i64,
    pub correction: i64,
    pub withdrawn: i64,
    pub rate: f64,
}

fn rate_answer(a: Result<LineRate, Refusal>) -> Rated
    requires { SmallRate (rates.answer_of a) }
    ensures { result ≡ signed_rate (rates.answer_of a) }
{
    match a {
        Ok(its) => line_rate(its),
        Err(r) => {
            let r = signed_refusal(r);
            Rated {
                number: r.number,
                place: r.place,
                line: 0,
                correction: 0,
                withdrawn: 0,
                rate: 0.0,
            }
        }
    }
}

// Of a line that there is.
fn line_rate(its: LineRate) -> Rated
    requires { Small its.line }
    ensures { result ≡ signed_rate (rates.answer_of (Ok its)) }
{
    let line = signed::signed_count(its.line);
    let correction = its.correction;
    match its.rate {
        Rate::PerKm(rate) => Rated {
            number: 0,
            place: 0,
            line,
            correction,
            withdrawn: 0,
            rate,
        },
        Rate::Withdrawn => Rated {
            number: 0,
            place: 0,
            line,
            correction,
            withdrawn: 1,
            rate: 0.0,
        },
    }
}

#[unsafe(no_mangle)]
pub extern "C" fn level_rate(
    version: i64,
    b: i64,
    t: i64,
    held: &[i64],
    lines: &[i64],
    heights: &[i64],
    line: i64,
) -> Rated
    ensures { result ≡ signed_rate (rate_answer (lent version b t held.now lines.now) heights.now line) }
{
    rate_answer(adjust::rate(version, b, t, held, lines, heights, line))
}
