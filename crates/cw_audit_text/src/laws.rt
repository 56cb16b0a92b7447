//! Laws of audits as text: a function that does nothing has its law as contract.

ghost use Rattle.std.specs.Prelude.{◌≡◌, ◌≤◌, Result, IfOk, IfErr, length};
ghost use Rattle.cw_audit_table.specs.Tables.{Audit, audit_of};
ghost use Rattle.cw_audit_text.specs.AuditText.{audit_text, Fits};
ghost use Rattle.cw_audit_text.specs.Faults.{IsAnswer};
ghost use Rattle.cw_audit_text.specs.declared.fault.AuditTextFault.{AuditTextFault as Fault};
ghost use Rattle.cw_audit_text.specs.declared.fault.AuditTextFault.TheVariants.{NoMemory as OutOfMemory};

use crate::fault::AuditTextFault;
use crate::printing::print_audit;
use crate::reading::read_audit;
use cw_audit_table::AuditTable;
use cw_core::limits::FILE_BYTES_IN_FORMAT_2;
use cw_io::SureSink;
use std::alloc::Global;

/// A text is that of one audit, or has one fault, and not both.
pub fn one_answer(text: &[u8])
    ensures one { (a b : Result Audit Fault) → IsAnswer text.now a → IsAnswer text.now b → a ≡ b }
{}

/// Each text is that of an audit, or has a fault.
pub fn some_answer(text: &[u8])
    ensures some { (answer : Result Audit Fault) × IsAnswer text.now answer }
{}

/// What is printed is read again as the value: the audit, where it has a text, which isn't longer than one that is read; or want of memory.
pub fn read_again(alloc: Global, table: &AuditTable) -> Result<AuditTable, AuditTextFault>
    requires fits { Fits (audit_of table.now) }
    requires short { length (audit_text (audit_of table.now)) ≤ FILE_BYTES_IN_FORMAT_2 }
    ensures same { IfOk result (λ again. audit_of again ≡ audit_of table.now) }
    ensures memory { IfErr result (λ fault. fault ≡ OutOfMemory) }
{
    let mut sink = SureSink::make(alloc);
    match print_audit(table, &mut sink) {
        Ok(()) => read_audit(alloc, sink.bytes()),
        Err(_) => Err(AuditTextFault::NoMemory),
    }
}
