//! The files of a question: a table without levels of its observations' own, and a certificate beside it.
ghost use Rattle.std.specs.Prelude.{◌≡◌, ◌≤◌, MatchResult, Ok, false, length};
ghost use Rattle.rp_commands.specs.Readings.{Just, TakenTable, unless_levelled};
ghost use Rattle.rp_fit_answers.specs.Contents as contents;
ghost use Rattle.rp_fit_answers.specs.Contents.{CertificateIn};
ghost use Rattle.rp_fit_answers.specs.InnerCauses.{IsReadingCause};
ghost use Rattle.rp_fit_answers.specs.InnerLoadings.{HasContents, LoadsAsked, LoadsFile};
ghost use Rattle.rp_fit_answers.specs.Questions.{CheckFit, Fit};
ghost use Rattle.rp_limits.specs.declared.run.TheConstants.{MOST_BYTES, MOST_CERTIFICATE_BYTES};

use crate::faults::{certificate_refusal, refusal, table_refusal};
use rp_fit::FitItem;
use rp_front::Cause;
use rp_json_fit::read_fit;
use rp_limits::run::{MOST_BYTES, MOST_CERTIFICATE_BYTES};
use rp_num::Seq;
use rp_outside::{Desk, LoadFault, load};
use rp_table::Table;
use rp_text::read_table;
use std::alloc::Global;

/// The table of a question about its indices.
pub(crate) fn load_asked_table<'a, D: Desk>(
    alloc: Global,
    desk: &mut D,
    table: &'a str,
    json: bool,
) -> Result<Table, Cause<'a>>
    ensures { LoadsAsked D.bytes D.faults D.calls D.asked desk.old desk.new (Fit table.now json)
        (λ held. HasContents (D.bytes desk.old) (Fit table.now json) (contents.Table held)) result }
{
    load_table(alloc, desk, table)
}

/// The table of a question about a certificate, and the items of the certificate.
pub(crate) fn load_asked_certificate<'a, D: Desk>(
    alloc: Global,
    desk: &mut D,
    table: &'a str,
    certificate: &'a str,
) -> Result<(Table, Seq<FitItem>), Cause<'a>>
    ensures { LoadsAsked D.bytes D.faults D.calls D.asked desk.old desk.new
        (CheckFit table.now certificate.now) (λ both. HasContents (D.bytes desk.old)
        (CheckFit table.now certificate.now) (contents.TableAndCertificate both.0 both.1))
        result }
{
    let held = match load_table(alloc, desk, table) {
        Ok(held) => held,
        Err(why) => return Err(why),
    };
    match load_certificate(alloc, desk, certificate) {
        Ok(items) => Ok((held, items)),
        Err(why) => Err(why),
    }
}

/// The table in a file.
fn load_table<'a, D: Desk>(alloc: Global, desk: &mut D, file: &'a str) -> Result<Table, Cause<'a>>
    ensures { LoadsFile D.bytes D.faults D.calls D.asked desk.old desk.new MOST_BYTES
        file.now (TakenTable false file.now) result }
{
    match load(alloc, desk, file, MOST_BYTES) {
        Ok(bytes) => table_of(alloc, file, bytes.as_slice()),
        Err(LoadFault::Read) => Err(Cause::Read(file)),
        Err(LoadFault::TooLong) => Err(refusal(alloc, file, b"TooLong")),
        Err(LoadFault::NoMemory) => Err(Cause::NoMemory),
    }
}

/// The table that the bytes of a file denote, unless it has levels of its observations' own.
fn table_of<'a>(alloc: Global, file: &'a str, bytes: &[u8]) -> Result<Table, Cause<'a>>
    requires { length bytes.now ≤ MOST_BYTES }
    ensures { MatchResult result (λ table. TakenTable false file.now bytes.now (Ok table))
        (IsReadingCause (TakenTable false file.now bytes.now)) }
{
    match read_table(alloc, bytes) {
        Ok(table) => unless_levelled(alloc, file, table),
        Err(fault) => Err(table_refusal(alloc, file, fault)),
    }
}

/// A table, unless it has levels of its observations' own.
fn unless_levelled<'a>(alloc: Global, file: &'a str, table: Table) -> Result<Table, Cause<'a>>
    ensures { MatchResult result
        (λ taken. unless_levelled false file.now table ≡ Ok taken)
        (IsReadingCause (Just (unless_levelled false file.now table))) }
{
    if table.levelled() {
        return Err(refusal(alloc, file, b"OwnLevels"));
    }
    Ok(table)
}

/// The items of the certificate in a file.
fn load_certificate<'a, D: Desk>(
    alloc: Global,
    desk: &mut D,
    file: &'a str,
) -> Result<Seq<FitItem>, Cause<'a>>
    ensures { LoadsFile D.bytes D.faults D.calls D.asked desk.old desk.new
        MOST_CERTIFICATE_BYTES file.now (CertificateIn file.now) result }
{
    match load(alloc, desk, file, MOST_CERTIFICATE_BYTES) {
        Ok(bytes) => certificate_of(alloc, file, bytes.as_slice()),
        Err(LoadFault::Read) => Err(Cause::Read(file)),
        Err(LoadFault::TooLong) => Err(refusal(alloc, file, b"TooLong")),
        Err(LoadFault::NoMemory) => Err(Cause::NoMemory),
    }
}

/// The items of the certificate that the bytes of a file denote.
fn certificate_of<'a>(alloc: Global, file: &'a str, bytes: &[u8]) -> Result<Seq<FitItem>, Cause<'a>>
    requires { length bytes.now ≤ MOST_CERTIFICATE_BYTES }
    ensures { MatchResult result (λ items. CertificateIn file.now bytes.now (Ok items))
        (IsReadingCause (CertificateIn file.now bytes.now)) }
{
    match read_fit(alloc, bytes) {
        Ok(items) => Ok(items),
        Err(fault) => Err(certificate_refusal(alloc, file, fault)),
    }
}
