// The check of names (document 02, card 2): whether each commit of a store is under the digest of its body, and whether the commit-graph file ends
// in the digest of the rest (git fsck). No function here writes a byte, and each public one is total on any bytes.
#![tactic(auto)]

ghost use Rattle.std.specs.Prelude.{◌≡◌, true, ◌-◌, ◌<◌};
ghost use Rattle.hash.specs.Bytes.{width_of};
ghost use Rattle.idlist.specs.IdList.{found_of};
ghost use Rattle.odb.specs.Store.{entries, store_is_ok};
ghost use Rattle.fsck.specs.Names.{true_name, first_false, true_sum, sum_ok, sum_report, names_report, check_names, checked_number};

use hash::Kind;
use walk::Refusal;

// What the check gives: no fault, or the refusal of the first fault; and the entry's number, counted from 0, where its name is false, else 0.
#[derive(Clone, Copy)]
pub struct Report {
    pub outcome: Result<(), Refusal>,
    pub entry: usize,
}

fn wide(n: u8) -> u32
    ensures { result ≡ n }
{
    n as u32
}

// The number of an outcome: 0 where there is no fault, else the refusal's.
pub fn number(outcome: Result<(), Refusal>) -> u32
    ensures { result ≡ checked_number outcome }
{
    match outcome {
        Ok(()) => 0,
        Err(r) => wide(walk::number(r)),
    }
}

// Whether entry k is under the digest of its body.
fn is_named(kind: Kind, store: &[u8], k: usize) -> bool
    requires { (store_is_ok (width_of kind) store.now ≡ true) × (k < entries store.now) }
    ensures { result ≡ true_name kind store.now k }
{
    let body = odb::entry_bytes(kind, store, k);
    commitid::is_commit_id(kind, body, odb::entry_id(kind, store, k))
}

// The first entry whose name is false. Ids rise, so it is the first in id order.
fn first_false(kind: Kind, store: &[u8]) -> Option<usize>
    requires { store_is_ok (width_of kind) store.now ≡ true }
    ensures { result ≡ found_of (first_false kind store.now 0 (entries store.now)) }
{
    let n = odb::count(kind, store);
    for k in 0..n {
        if !is_named(kind, store, k) {
            return Some(k);
        }
    }
    None
}

// Where the checksum of a file of n bytes starts.
fn sum_start(kind: Kind, n: usize) -> usize
    ensures { result ≡ n - width_of kind }
{
    let w = hash::width(kind);
    if n < w {
        return 0;
    }
    n - w
}

// Whether a file ends in the digest of the rest.
fn sum_is_true(kind: Kind, graph: &[u8]) -> bool
    ensures { result ≡ true_sum kind graph.now }
{
    let n = sum_start(kind, graph.len());
    commitid::is_digest(kind, &graph[..0], hash::part(graph, 0, n), &graph[n..])
}

// The same, of a graph that may be lent or not: one of no bytes has no checksum.
fn sum_is_fine(kind: Kind, graph: &[u8]) -> bool
    ensures { result ≡ sum_ok kind graph.now }
{
    if graph.len() == 0 {
        return true;
    }
    sum_is_true(kind, graph)
}

// The report where every name is true: the checksum decides.
fn check_sum(kind: Kind, graph: &[u8]) -> Report
    ensures { result ≡ sum_report kind graph.now }
{
    if sum_is_fine(kind, graph) {
        return Report {
            outcome: Ok(()),
            entry: 0,
        };
    }
    Report {
        outcome: Err(Refusal::FalseChecksum),
        entry: 0,
    }
}

// The report of files whose layout is good: the names, then the checksum.
fn check_digests(kind: Kind, store: &[u8], graph: &[u8]) -> Report
    requires { store_is_ok (width_of kind) store.now ≡ true }
    ensures { result ≡ names_report kind graph.now (first_false kind store.now 0 (entries store.now)) }
{
    match first_false(kind, store) {
        Some(k) => Report {
            outcome: Err(Refusal::FalseName),
            entry: k,
        },
        None => check_sum(kind, graph),
    }
}

// The check: the files as an opening without lists tests them, then the names, then the checksum.
pub fn check_names(kind: Kind, store: &[u8], graph: &[u8]) -> Report
    ensures { result ≡ check_names kind store.now graph.now }
{
    match opening::check_input(kind, store, graph, &store[..0], &store[..0], &store[..0]) {
        Err(r) => Report {
            outcome: Err(r),
            entry: 0,
        },
        Ok(()) => check_digests(kind, store, graph),
    }
}
