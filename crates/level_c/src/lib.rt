// The C interface of the static library: each export calls the function of the same name in crate level, with its contract word for word.
// include/level.h declares them.
#![tactic(auto)]

ghost use Rattle.std.specs.Prelude.{◌≡◌};
ghost use Rattle.book.specs.Lent.{lent};
ghost use Rattle.file.specs.Read.{read_of};
ghost use Rattle.writer.specs.Write.{write_of};
ghost use Rattle.survey.specs.Survey.{survey_of};
ghost use Rattle.survey.specs.Correction.{rerun_of, withdraw_of};
ghost use Rattle.rates.specs.Rates.{rate_answer};
ghost use Rattle.level.specs.Signed.{read_now, of_read};
ghost use Rattle.level.specs.Writings.{writing_now, of_writing};
ghost use Rattle.level.specs.Answers.{survey_now, of_survey, correction_now, of_correction};
ghost use Rattle.lists.specs.Listing.{listing_of, listings_of};
ghost use Rattle.lists.specs.NotChecked.{not_checked_of};
ghost use Rattle.adjust.specs.Call.{adjust_of};
ghost use Rattle.level.specs.Listings.{listing_now, of_listing};
ghost use Rattle.level.specs.Heights.{adjust_now, of_adjust};
ghost use Rattle.level.specs.Rating.{signed_rate};
ghost use Rattle.junctions.specs.Call.{lists, sketch_call};
ghost use Rattle.level.specs.Sketches.{sketch_now, of_sketch};

use level::{Adjusted, Answer, Listed, Rated, ReadAnswer, Sketched, Written};

#[unsafe(no_mangle)]
pub extern "C" fn level_read(file: &[u8], held: &mut [i64], lines: &mut [i64]) -> ReadAnswer
    ensures { read_now result held.new lines.new
        ≡ of_read (read_of file.now held.old lines.old) }
{
    level::level_read(file, held, lines)
}

#[unsafe(no_mangle)]
pub extern "C" fn level_write(
    version: i64,
    b: i64,
    t: i64,
    held: &[i64],
    lines: &[i64],
    file: &mut [u8],
) -> Written
    ensures { writing_now result file.new
        ≡ of_writing (write_of (lent version b t held.now lines.now) file.old) }
{
    level::level_write(version, b, t, held, lines, file)
}

#[unsafe(no_mangle)]
pub extern "C" fn level_survey(
    version: i64,
    b: i64,
    t: i64,
    held: &[i64],
    lines: &[i64],
    rows: &mut [i64],
) -> Answer
    ensures { survey_now result rows.new
        ≡ of_survey (survey_of (lent version b t held.now lines.now) rows.old) }
{
    level::level_survey(version, b, t, held, lines, rows)
}

#[unsafe(no_mangle)]
pub extern "C" fn level_rerun(
    version: i64,
    b: i64,
    t: i64,
    held: &[i64],
    lines: &mut [i64],
    report: &mut [i64],
    line: i64,
    difference: i64,
) -> Answer
    ensures { correction_now result lines.new report.new
        ≡ of_correction (rerun_of (lent version b t held.now lines.old) report.old line difference) }
{
    level::level_rerun(version, b, t, held, lines, report, line, difference)
}

#[unsafe(no_mangle)]
pub extern "C" fn level_withdraw(
    version: i64,
    b: i64,
    t: i64,
    held: &[i64],
    lines: &mut [i64],
    report: &mut [i64],
    line: i64,
) -> Answer
    ensures { correction_now result lines.new report.new
        ≡ of_correction (withdraw_of (lent version b t held.now lines.old) report.old line) }
{
    level::level_withdraw(version, b, t, held, lines, report, line)
}

#[unsafe(no_mangle)]
pub extern "C" fn level_listing(
    version: i64,
    b: i64,
    t: i64,
    held: &[i64],
    lines: &[i64],
    number: i64,
    out: &mut [i64],
) -> Listed
    ensures { listing_now result out.new
        ≡ of_listing (listing_of (lent version b t held.now lines.now) number out.old) }
{
    level::level_listing(version, b, t, held, lines, number, out)
}

#[unsafe(no_mangle)]
pub extern "C" fn level_listings(
    version: i64,
    b: i64,
    t: i64,
    held: &[i64],
    lines: &[i64],
    out: &mut [i64],
) -> Listed
    ensures { listing_now result out.new
        ≡ of_listing (listings_of (lent version b t held.now lines.now) out.old) }
{
    level::level_listings(version, b, t, held, lines, out)
}

#[unsafe(no_mangle)]
pub extern "C" fn level_not_checked(
    version: i64,
    b: i64,
    t: i64,
    held: &[i64],
    lines: &[i64],
    out: &mut [i64],
) -> Listed
    ensures { listing_now result out.new
        ≡ of_listing (not_checked_of (lent version b t held.now lines.now) out.old) }
{
    level::level_not_checked(version, b, t, held, lines, out)
}

#[unsafe(no_mangle)]
pub extern "C" fn level_sketch(
    version: i64,
    b: i64,
    t: i64,
    held: &[i64],
    lines: &[i64],
    links: &mut [i64],
    spurs: &mut [i64],
    loops: &mut [i64],
    run: &mut [i64],
) -> Sketched
    ensures { sketch_now result (lists links.new spurs.new loops.new run.new)
        ≡ of_sketch (sketch_call (lent version b t held.now lines.now)
        (lists links.old spurs.old loops.old run.old)) }
{
    level::level_sketch(version, b, t, held, lines, links, spurs, loops, run)
}

#[unsafe(no_mangle)]
pub extern "C" fn level_adjust(
    version: i64,
    b: i64,
    t: i64,
    held: &[i64],
    lines: &[i64],
    heights: &mut [i64],
) -> Adjusted
    ensures { adjust_now result heights.new
        ≡ of_adjust (adjust_of (lent version b t held.now lines.now) heights.old) }
{
    level::level_adjust(version, b, t, held, lines, heights)
}

#[unsafe(no_mangle)]
pub extern "C" fn level_rate(
    version: i64,
    b: i64,
    t: i64,
    held: &[i64],
    lines: &[i64],
    heights: &[i64],
    line: i64,
) -> Rated
    ensures { result ≡ signed_rate (rate_answer (lent version b t held.now lines.now) heights.now line) }
{
    level::level_rate(version, b, t, held, lines, heights, line)
}
