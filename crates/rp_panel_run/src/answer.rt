//! The table of a long file, or its bounds at the prices of a second file, or why there is none.
ghost use Rattle.std.specs.Prelude.{◌≡◌, ◌≢◌, ◌<◌, ◌≤◌, ◌+◌, ◌^◌, IfErr, IfOk, None, Ok, length};
ghost use Rattle.rp_bounds_panel.specs.BoundsText.{IsBoundsText};
ghost use Rattle.rp_front.specs.AskedInTurn.{AreAskedInTurn};
ghost use Rattle.rp_front.specs.Contents.{AnswersWith};
ghost use Rattle.rp_front.specs.Endings.{Rose};
ghost use Rattle.rp_front.specs.InnerCauses.{IsCause};
ghost use Rattle.rp_front.specs.Turns.{AreReadInTurn, AsksForFirst};
ghost use Rattle.rp_limits.specs.declared.long.TheConstants.{BYTES};
ghost use Rattle.rp_limits.specs.declared.run.TheConstants.{MOST_BYTES};
ghost use Rattle.rp_long.specs.Panels.{denoted_panel};
ghost use Rattle.rp_outside.specs.Asked.{AsksAtMostOnce, AsksOnce};
ghost use Rattle.rp_outside.specs.Faults.{EachStays, HasRisen, NoneFalls};
ghost use Rattle.rp_outside.specs.Known.{AreAll};
ghost use Rattle.rp_outside.specs.Reads.{calls_through};
ghost use Rattle.rp_panel.specs.PanelText.{IsPanelText};
ghost use Rattle.rp_panel_run.specs.Endings.{AreBoundsAt, IsAnswerFor, IsTextBy};
ghost use Rattle.rp_panel_run.specs.Front.{panels};
ghost use Rattle.rp_panel_run.specs.InnerCauses.{AsksForNew, AsksForNone, IsAnswerBeside};
ghost use Rattle.rp_panel_run.specs.InnerCauses.{IsFaultCause, IsFaultOfRecords, IsFaulty};
ghost use Rattle.rp_panel_run.specs.InnerCauses.{IsLoadCause, IsNewCause, IsTextBeside, IsToldAs};
ghost use Rattle.rp_panel_run.specs.InnerCauses.{is_memory};
ghost use Rattle.rp_panel_run.specs.Questions.{demand_by, given_by, id_name, more_asked, welfare_by};
ghost use Rattle.rp_panel_run.specs.Told as Told;

use crate::question::Question;
use crate::telling::{left_out_lines, line_about, long_fault_text};
use rp_bound_rows::{AsStated as BoundsAsStated, BoundSearch, BoundsAsked};
use rp_bound_rows_wide::Filled as BoundsFilled;
use rp_bounds_panel::write_bounds;
use rp_front::{Answer, Cause, Status};
use rp_limits::long::BYTES;
use rp_limits::run::MOST_BYTES;
use rp_long::{Households, LongFault, read_long_records, read_panel};
use rp_num::NoMemory;
use rp_outside::{Desk, LoadFault, load};
use rp_panel::write_panel;
use rp_rows::{AsStated, HomotheticTest};
use rp_rows_wide::Filled;
use rp_sheet::{Records, TableFault};
use std::alloc::Global;

/// The answer for the files that a question names. The long file is read first; that of new prices is read where bounds
/// are asked and the long file is accepted.
pub(crate) fn answer_files<'a, D: Desk>(
    alloc: Global,
    desk: &mut D,
    question: &'a Question<'_>,
) -> Result<Answer, Cause<'a>>
    ensures written { IfOk result (λ answer. AnswersWith panels (D.bytes desk.old)
        question.now answer.status answer.text.items answer.told.items) }
    ensures caused { IfErr result (IsCause panels (D.bytes desk.old)
        (Rose (D.faults desk.old) (D.faults desk.new))
        (AsksForFirst panels (D.bytes desk.old) (D.calls desk.old) (D.calls desk.new)
        question.now) question.now) }
    ensures turns { AreReadInTurn panels (D.bytes desk.old)
        (D.calls desk.old) (D.calls desk.new) question.now }
    ensures names { AreAskedInTurn panels (D.bytes desk.old)
        (D.asked desk.old) (D.asked desk.new) question.now }
    ensures bytes_stay { EachStays (D.bytes desk.old) (D.bytes desk.new) }
    ensures never_falls { NoneFalls (D.faults desk.old) (D.faults desk.new) }
{
    match load_file(alloc, desk, question.file(), BYTES) {
        Ok(long) => answer_long(alloc, desk, question, long.as_slice()),
        Err(cause) => Err(cause),
    }
}

/// All bytes of a file, of which there are at most so many.
fn load_file<'a, D: Desk>(
    alloc: Global,
    desk: &mut D,
    name: &'a str,
    limit: u64,
) -> Result<Vec<u8>, Cause<'a>>
    requires { limit < 2 ^ 32 }
    ensures whole { IfOk result (λ bytes. AreAll (D.bytes desk.old name.now) bytes.items) }
    ensures few { IfOk result (λ bytes. length bytes.items ≤ limit) }
    ensures counted { IfOk result (λ _. EachStays (D.faults desk.old) (D.faults desk.new)) }
    ensures caused { IfErr result (IsLoadCause name.now limit (D.bytes desk.old name.now)
        (HasRisen (D.faults desk.old name.now) (D.faults desk.new name.now))) }
    ensures read_through { D.calls desk.new
        ≤ D.calls desk.old + calls_through limit (D.bytes desk.old name.now) }
    ensures asks_once { IfOk result (λ _. AsksOnce (D.asked desk.old) (D.asked desk.new) name.now) }
    ensures asks_at_most_once { AsksAtMostOnce (D.asked desk.old) (D.asked desk.new) name.now }
    ensures bytes_stay { EachStays (D.bytes desk.old) (D.bytes desk.new) }
    ensures never_falls { NoneFalls (D.faults desk.old) (D.faults desk.new) }
{
    match load(alloc, desk, name, limit) {
        Ok(bytes) => Ok(bytes),
        Err(LoadFault::Read) => Err(Cause::Read(name)),
        Err(LoadFault::TooLong) => Err(refused(alloc, name, b"TooLong")),
        Err(LoadFault::NoMemory) => Err(Cause::NoMemory),
    }
}

/// The answer for these bytes of the long file. Where they are refused, no other file is read.
fn answer_long<'a, D: Desk>(
    alloc: Global,
    desk: &mut D,
    question: &'a Question<'_>,
    long: &[u8],
) -> Result<Answer, Cause<'a>>
    requires { length long.now ≤ BYTES }
    ensures written { IfOk result (λ answer. (answer.status ≡ Status.Done) × IsTextBeside question.now
        (D.bytes desk.old question.now.new_prices)
        long.now answer.text.items answer.told.items) }
    ensures caused { IfErr result (IsFaultCause question.now
        (D.bytes desk.old question.now.new_prices)
        (HasRisen (D.faults desk.old question.now.new_prices)
        (D.faults desk.new question.now.new_prices)) long.now) }
    ensures asks { AsksForNew question.now.bounds question.now.new_prices
        (D.bytes desk.old question.now.new_prices)
        (D.calls desk.old) (D.calls desk.new) (D.asked desk.old) (D.asked desk.new) }
    ensures stops { IsFaulty question.now long.now → AsksForNone
        (D.calls desk.old) (D.calls desk.new) (D.asked desk.old) (D.asked desk.new) }
    ensures bytes_stay { EachStays (D.bytes desk.old) (D.bytes desk.new) }
    ensures never_falls { NoneFalls (D.faults desk.old) (D.faults desk.new) }
{
    let records = read_long_records(alloc, long)?;
    match open_panel(alloc, question, &records) {
        Ok(panel) => answer_beside(alloc, desk, question, &panel),
        Err(cause) => Err(cause),
    }
}

/// The panel of these records.
fn open_panel<'a, 'r>(
    alloc: Global,
    question: &'a Question<'_>,
    records: &'r Records,
) -> Result<Households<'r>, Cause<'a>>
    ensures denoted { IfOk result (λ panel. denoted_panel (id_name question.now) question.now.kept
        records.now ≡ Ok panel) }
    ensures refused { IfErr result (IsFaultOfRecords question.now records.now) }
{
    match read_panel(alloc, records, question.id_name(), question.kept()) {
        Ok(panel) => Ok(panel),
        Err(fault) if is_memory(fault) => Err(Cause::NoMemory),
        Err(fault) => Err(refused_for(alloc, question.file(), fault)),
    }
}

/// The answer for this panel, beside the file of new prices where bounds are asked.
fn answer_beside<'a, D: Desk>(
    alloc: Global,
    desk: &mut D,
    question: &'a Question<'_>,
    panel: &Households<'_>,
) -> Result<Answer, Cause<'a>>
    ensures written { IfOk result (λ answer. (answer.status ≡ Status.Done) × IsAnswerBeside question.now
        (D.bytes desk.old question.now.new_prices) panel.now answer.text.items answer.told.items) }
    ensures caused { IfErr result (IsNewCause question.now
        (D.bytes desk.old question.now.new_prices)
        (HasRisen (D.faults desk.old question.now.new_prices)
        (D.faults desk.new question.now.new_prices))) }
    ensures asks { AsksForNew question.now.bounds question.now.new_prices
        (D.bytes desk.old question.now.new_prices)
        (D.calls desk.old) (D.calls desk.new) (D.asked desk.old) (D.asked desk.new) }
    ensures bytes_stay { EachStays (D.bytes desk.old) (D.bytes desk.new) }
    ensures never_falls { NoneFalls (D.faults desk.old) (D.faults desk.new) }
{
    match load_new(alloc, desk, question) {
        Ok(new) => {
            let answer = answer_panel(alloc, question, new.as_slice(), panel)?;
            Ok(answer)
        }
        Err(cause) => Err(cause),
    }
}

/// The bytes of the file of new prices, or none where no bounds are asked.
fn load_new<'a, D: Desk>(
    alloc: Global,
    desk: &mut D,
    question: &'a Question<'_>,
) -> Result<Vec<u8>, Cause<'a>>
    ensures whole { IfOk result (λ new. question.now.bounds ≢ None
        → AreAll (D.bytes desk.old question.now.new_prices) new.items) }
    ensures few { IfOk result (λ new. length new.items ≤ MOST_BYTES) }
    ensures caused { IfErr result (IsNewCause question.now
        (D.bytes desk.old question.now.new_prices)
        (HasRisen (D.faults desk.old question.now.new_prices)
        (D.faults desk.new question.now.new_prices))) }
    ensures asks { AsksForNew question.now.bounds question.now.new_prices
        (D.bytes desk.old question.now.new_prices)
        (D.calls desk.old) (D.calls desk.new) (D.asked desk.old) (D.asked desk.new) }
    ensures bytes_stay { EachStays (D.bytes desk.old) (D.bytes desk.new) }
    ensures never_falls { NoneFalls (D.faults desk.old) (D.faults desk.new) }
{
    if question.bounds().is_none() {
        return Ok(Vec::new(alloc));
    }
    load_file(alloc, desk, question.new_file(), MOST_BYTES)
}

/// The answer for this panel, at the new prices in these bytes where bounds are asked.
fn answer_panel(
    alloc: Global,
    question: &Question<'_>,
    new: &[u8],
    panel: &Households<'_>,
) -> Result<Answer, NoMemory>
    requires { length new.now ≤ MOST_BYTES }
    ensures { IfOk result (λ answer. (answer.status ≡ Status.Done)
        × IsAnswerFor question.now new.now panel.now
        answer.text.items answer.told.items) }
{
    let columns = panel.left_out(alloc)?;
    let told = left_out_lines(alloc, columns.as_slice())?;
    let text = panel_text(alloc, question, new, panel)?;
    Ok(Answer {
        status: Status::Done,
        text,
        told,
    })
}

/// The text for this panel: that of its table, or of the bounds that are asked.
fn panel_text(
    alloc: Global,
    question: &Question<'_>,
    new: &[u8],
    panel: &Households<'_>,
) -> Result<Vec<u8>, NoMemory>
    requires { length new.now ≤ MOST_BYTES }
    ensures { IfOk result (λ text. IsTextBy question.now.bounds question.now new.now panel.now
        text.items) }
{
    match question.bounds() {
        Some(asked) => bounds_text(alloc, question, asked, new, panel),
        None => table_text(alloc, question, panel),
    }
}

/// The text of the bounds of this panel at the prices of these bytes, which are few enough.
fn bounds_text(
    alloc: Global,
    question: &Question<'_>,
    asked: BoundsAsked,
    new: &[u8],
    panel: &Households<'_>,
) -> Result<Vec<u8>, NoMemory>
    requires { length new.now ≤ MOST_BYTES }
    ensures { IfOk result (λ text. AreBoundsAt question.now asked panel.now text.items new.now) }
{
    bounds_text_at(alloc, question, asked, new, panel)
}

/// The text of the bounds of this panel at the prices of these bytes.
fn bounds_text_at(
    alloc: Global,
    question: &Question<'_>,
    asked: BoundsAsked,
    new: &[u8],
    panel: &Households<'_>,
) -> Result<Vec<u8>, NoMemory>
    ensures { IfOk result (λ text. IsBoundsText (demand_by question.now.wide)
        (welfare_by question.now.wide) asked new.now question.now.kept panel.now text.items) }
{
    if question.is_wide() {
        return bounds_text_by::<BoundsFilled>(alloc, question, asked, new, panel);
    }
    bounds_text_by::<BoundsAsStated>(alloc, question, asked, new, panel)
}

/// The text of the bounds of this panel, which this search finds.
fn bounds_text_by<S: BoundSearch>(
    alloc: Global,
    question: &Question<'_>,
    asked: BoundsAsked,
    new: &[u8],
    panel: &Households<'_>,
) -> Result<Vec<u8>, NoMemory>
    ensures { IfOk result (λ text. IsBoundsText S.of_demand S.of_welfare asked new.now
        question.now.kept panel.now text.items) }
{
    write_bounds::<S>(alloc, asked, new, question.kept(), panel)
}

/// The text of the table of this panel.
fn table_text(
    alloc: Global,
    question: &Question<'_>,
    panel: &Households<'_>,
) -> Result<Vec<u8>, NoMemory>
    ensures { IfOk result (λ text. IsPanelText (given_by question.now.wide)
        (more_asked question.now) question.now.offered question.now.kept panel.now text.items) }
{
    if question.is_wide() {
        return table_text_by::<Filled>(alloc, question, panel);
    }
    table_text_by::<AsStated>(alloc, question, panel)
}

/// The text of the table of this panel, with this homothetic test.
fn table_text_by<T: HomotheticTest>(
    alloc: Global,
    question: &Question<'_>,
    panel: &Households<'_>,
) -> Result<Vec<u8>, NoMemory>
    ensures { IfOk result (λ text. IsPanelText T.given
        (more_asked question.now) question.now.offered question.now.kept panel.now text.items) }
{
    write_panel::<T>(
        alloc,
        question.more_asked(),
        question.is_offered(),
        question.kept(),
        panel,
    )
}

/// Whether a fault is want of memory.
fn is_memory(fault: LongFault) -> bool
    ensures { result ≡ is_memory fault }
{
    match fault {
        LongFault::Table(TableFault::NoMemory) => true,
        _ => false,
    }
}

/// The cause that a fault of a file is.
fn refused_for<'a>(alloc: Global, name: &str, fault: LongFault) -> Cause<'a>
    ensures { IsToldAs name.now (Told.long_fault_text fault) result }
{
    match long_fault_text(alloc, fault) {
        Ok(text) => refused(alloc, name, text.as_slice()),
        Err(_) => Cause::NoMemory,
    }
}

/// The cause of a refusal of a file with that text.
fn refused<'a>(alloc: Global, name: &str, text: &[u8]) -> Cause<'a>
    ensures { IsToldAs name.now text.now result }
{
    match line_about(alloc, name, text) {
        Ok(line) => Cause::Refused(line),
        Err(_) => Cause::NoMemory,
    }
}
