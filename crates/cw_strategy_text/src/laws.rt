//! Laws of strategies as text: a function that does nothing has its law as contract.

ghost use Rattle.std.specs.Prelude.{◌≡◌, Result, Ok, Err, IfOk, IfErr};
ghost use Rattle.cw_certs.specs.Strategies.{strategy_of, Strategy};
ghost use Rattle.cw_text.specs.declared.fault.TextFault.{TextFault as Fault};
ghost use Rattle.cw_text.specs.declared.fault.TextFault.TheVariants.{NoMemory as OutOfMemory};
ghost use Rattle.cw_strategy_text.specs.StrategyText.{Fits};
ghost use Rattle.cw_strategy_text.specs.Faults.{IsAnswer};

use crate::printing::print_env;
use crate::reading::read_env;
use cw_certs::EnvCert;
use cw_io::SureSink;
use cw_text::TextFault;
use std::alloc::Global;

/// A text is that of one strategy, or has one fault, and not both.
pub fn one_answer(text: &[u8], format: u8)
    ensures one { (a b : Result Strategy Fault) → IsAnswer format text.now a → IsAnswer format text.now b → a ≡ b }
{}

/// Each text is that of a strategy, or has a fault.
pub fn some_answer(text: &[u8], format: u8)
    ensures some { (answer : Result Strategy Fault) × IsAnswer format text.now answer }
{}

/// What is printed is read again as the value: the strategy, where it has a text, or want of memory.
pub fn read_again(alloc: Global, cert: &EnvCert, format: u8) -> Result<EnvCert, TextFault>
    requires fits { Fits format (strategy_of cert.now) }
    ensures same { IfOk result (λ again. strategy_of again ≡ strategy_of cert.now) }
    ensures memory { IfErr result (λ fault. fault ≡ OutOfMemory) }
{
    let mut sink = SureSink::make(alloc);
    match print_env(cert, format, &mut sink) {
        Ok(()) => read_env(alloc, sink.bytes(), format),
        Err(_) => Err(TextFault::NoMemory),
    }
}
