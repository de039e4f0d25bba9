//! Coefficients that two workers compute.
ghost use Rattle.herd_frozen.specs.declared.TheConstants.{DEPTH_LIMIT};
ghost use Rattle.herd_advice.specs.BookCoefficients.{AreBookCoefficients};

use herd_advice::{Coefficients, fraction};
use herd_book_pool::coefficients;
use herd_fixtures::generations;
use herd_frozen::Frozen;
use herd_pool::{NoGate, PoolFault};
use std::alloc::Global;
use std::io;
use std::sync::Wait;
use std::thread::Threads;

/// Tells the coefficients of five generations of full sibs, an animal a block, and whether there are any.
pub fn tell<R: Threads + Wait + Print + Sync>(rt: &R, alloc: Global) -> io::Result<bool> {
    let Ok(frozen) = generations(alloc, 5) else {
        println!(rt; "pool: no book")?;
        return Ok(false);
    };
    match coefficients(rt, alloc, &frozen, 2, 1, &NoGate) {
        Ok(found) => {
            tell_list(rt, &frozen, &found)?;
            Ok(true)
        }
        Err(fault) => {
            tell_fault(rt, fault)?;
            Ok(false)
        }
    }
}

fn tell_fault(rt: &impl Print, fault: PoolFault) -> io::Result<()> {
    println!(rt; "pool: {fault}")
}

fn tell_list(
    rt: &impl Print,
    frozen: &Frozen<Global>,
    coefficients: &Coefficients<Global>,
) -> io::Result<()>
    requires { AreBookCoefficients DEPTH_LIMIT frozen.now coefficients.now }
{
    print!(rt; "pool:")?;
    for rank in 0..frozen.len() {
        let coefficient = fraction(coefficients.numerator(rank));
        print!(rt; " {coefficient}")?;
    }
    println!(rt;)
}
