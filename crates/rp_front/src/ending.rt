//! How a call of a program ends: its answer is written, or it is told why there is none.
ghost use Rattle.std.specs.Prelude.{◌≡◌, ◌⊎◌, ◌≤◌, codes};
ghost use Rattle.rp_guide.specs.Gains.{Gains};
ghost use Rattle.rp_outside.specs.Faults.{HasRisen};
ghost use Rattle.rp_outside.specs.Known.{Grows, GrowsByPrefix};
ghost use Rattle.rp_front.specs.Endings.{IsEnd, status_code};
ghost use Rattle.rp_front.specs.Gains.{GainsBoth};
ghost use Rattle.rp_front.specs.InnerCauses.{cause_line, status_of_cause};
ghost use Rattle.rp_front.specs.Lines.{hinted, write_line};

use crate::answer::{Answer, Cause};
use crate::status::Status;
use crate::telling::{tell, tell_error};
use rp_guide::code_of_line;
use rp_outside::{Sink, pour};

/// Tells what is told of an answer and writes its whole text, or tells that it could not be written.
pub(crate) fn finish<O: Sink, E: Sink>(
    name: &[u8],
    hints: bool,
    answer: &Answer,
    out: &mut O,
    err: &mut E,
) -> Status
    requires { IsEnd answer.now.status }
    ensures either { (result ≡ answer.now.status) ⊎ (result ≡ Status.WriteFault) }
    ensures whole { IsEnd result
        → Grows (O.written out.old) (O.written out.new) answer.now.text.items
        × Gains (E.written err.old) (E.written err.new)
        (E.faults err.old) (E.faults err.new) answer.now.told.items }
    ensures part { result ≡ Status.WriteFault
        → GrowsByPrefix (O.written out.old) (O.written out.new) answer.now.text.items
        × HasRisen (O.faults out.old) (O.faults out.new)
        × GainsBoth (E.written err.old) (E.written err.new) (E.faults err.old) (E.faults err.new)
        answer.now.told.items (hinted hints (codes "WriteFault") (write_line name.now)) }
    ensures out_counts { O.faults out.old ≤ O.faults out.new }
    ensures err_counts { E.faults err.old ≤ E.faults err.new }
{
    let _taken = tell(err, &[answer.told.as_slice()]);
    match pour(out, answer.text.as_slice()) {
        Ok(()) => answer.status,
        Err(_) => {
            tell_error(err, hints, &[name, b": write failed\n"], b"WriteFault");
            Status::WriteFault
        }
    }
}

/// Tells why there is no answer.
pub(crate) fn refuse<E: Sink>(name: &[u8], hints: bool, cause: &Cause<'_>, err: &mut E) -> Status
    ensures status { result ≡ status_of_cause cause.now }
    ensures told { Gains (E.written err.old) (E.written err.new)
        (E.faults err.old) (E.faults err.new) (hinted hints
        (status_code (status_of_cause cause.now) (cause_line name.now cause.now))
        (cause_line name.now cause.now)) }
    ensures err_counts { E.faults err.old ≤ E.faults err.new }
{
    match cause {
        Cause::Read(file) => {
            tell_error(
                err,
                hints,
                &[name, b": ", file.as_bytes(), b": read failed\n"],
                b"ReadFault",
            );
            Status::ReadFault
        }
        Cause::Refused(line) => {
            let line = line.as_slice();
            tell_error(err, hints, &[line], code_of_line(line));
            Status::Refused
        }
        Cause::NoMemory => {
            tell_error(err, hints, &[name, b": out of memory\n"], b"NoMemory");
            Status::NoMemory
        }
    }
}
