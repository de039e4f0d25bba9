//! All desks of an office, when it opens and when they are handed in.
ghost use Rattle.std.specs.Prelude.{count_by, map, ◌≡◌, ◌==◌, ◌≤◌, ◌↔◌, IsTrue, [], vec_len, IfOk, IfErr};
ghost use Rattle.std.specs.List.{sum_by};
ghost use Rattle.herd_office.specs.Histories.{Apart};
ghost use Rattle.herd_office.specs.Opening.{AreFresh};

use crate::desk::Desk;
use crate::faults::OpenFault;
use crate::history::History;
use crate::name::OfficeName;
use std::alloc::Allocator;
use std::sync::ledger::Share;

/// So many desks, numbered from 1 on. Each gets a part of the ledger, and none is left.
pub(crate) fn make_desks<N: OfficeName, A: Allocator>(
    alloc: A,
    count: u16,
    rest: &mut Share<N>,
    history: &History<N>,
) -> Result<Vec<Desk<N>, A>, OpenFault>
    requires parts { (rest.old.parts ≡ count) × (rest.old.amount ≡ 0) }
    requires history { history.now ≡ [] }
    ensures rest { IfOk result (λ _. (rest.new.parts ≡ 0) × (rest.new.amount ≡ 0)) }
    ensures count { IfOk result (λ r. vec_len r ≡ count) }
    ensures fresh { IfOk result (λ r. AreFresh r.items) }
    ensures fault { IfErr result (λ fault. fault ≡ OpenFault.Memory) }
{
    let mut desks = Vec::new(alloc);
    for number in 0..count {
        let desk = make_desk(number + 1, rest.split_off(1, 0), history);
        desks.push(desk)?;
    }
    Ok(desks)
}

// A desk at which nothing was filed. It holds a copy of the history.
fn make_desk<N: OfficeName>(number: u16, share: Share<N>, history: &History<N>) -> Desk<N>
    requires { (1 ≤ number) × (share.parts ≡ 1) × (share.amount ≡ 0) }
    ensures { (result.number ≡ number) × (result.answered ≡ 0) × (result.history ≡ history.now) }
{
    Desk {
        number,
        answered: 0,
        share,
        history: history.again(),
    }
}

/// Whether no number stands twice among the desks'.
pub(crate) fn all_apart<N: OfficeName>(desks: &[Desk<N>]) -> bool
    ensures { IsTrue result ↔ Apart (map (λ d. d.number) desks.now) }
{
    match desks {
        [] => true,
        [first, rest @ ..] => has_none(rest, first.number) && all_apart(rest),
    }
}

// Whether no desk has this number.
fn has_none<N: OfficeName>(desks: &[Desk<N>], number: u16) -> bool
    ensures { IsTrue result ↔ (count_by (λ n. number == n) (map (λ d. d.number) desks.now) ≡ 0) }
{
    match desks {
        [] => true,
        [first, rest @ ..] => number != first.number && has_none(rest, number),
    }
}

/// The shares of these desks as one. The sum begins with an empty share, which `rest` gives.
pub(crate) fn share_of_all<N: OfficeName, A: Allocator>(
    mut desks: Vec<Desk<N>, A>,
    rest: &mut Share<N>,
) -> Share<N>
    ensures parts { result.parts ≡ vec_len desks }
    ensures amount { result.amount ≡ sum_by (λ d. d.answered) desks.items }
    ensures within { result.parts ≤ N.parts }
    ensures rest { rest.new ≡ rest.old }
{
    let mut all = rest.empty();
    while let Some(desk) = desks.pop() {
        let Desk {
            number: _,
            answered: _,
            share,
            history: _history,
        } = desk;
        all.merge(share);
    }
    all
}
