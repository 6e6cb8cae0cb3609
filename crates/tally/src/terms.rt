// Counting by terms: the term of a commit, and a buffer of counts, one number a term.
ghost use Rattle.std.specs.Prelude.{◌≡◌, true, ◌≤◌, length};
ghost use Rattle.hash.specs.Bytes.{width_of};
ghost use Rattle.odb.specs.Store.{store_is_ok};
ghost use Rattle.calendar.specs.Terms.{good_terms};
ghost use Rattle.tally.specs.Terms.{spot_at, spot_of, term_of, good_part, bumped, zeros, FewCounts};

use date::Seconds;
use hash::Kind;
use reading::TipError;

// The term that has these seconds.
fn spot_at(terms: &[u32], s: Seconds) -> Option<usize>
    ensures { good_terms terms.now ≡ true → result ≡ spot_at terms.now s.0 }
{
    let k = calendar::term_at(terms, s.0);
    if k < terms.len() / 2 { Some(k) } else { None }
}

// The term of a commit whose seconds were read so.
fn spot_of(terms: &[u32], read: Result<Seconds, TipError>) -> Option<usize>
    ensures { good_terms terms.now ≡ true → result ≡ spot_of terms.now read }
{
    match read {
        Ok(s) => spot_at(terms, s),
        Err(_) => None,
    }
}

// The term of a commit, by its seconds in the store.
pub(crate) fn term_of(kind: Kind, terms: &[u32], store: &[u8], id: &[u8]) -> Option<usize>
    ensures { good_terms terms.now ≡ true → store_is_ok (width_of kind) store.now ≡ true → result ≡ term_of (width_of kind) terms.now store.now id.now }
{
    spot_of(terms, reading::read_tip(kind, store, id))
}

// The list itself where it is a good one, else none of it.
pub fn good_part(terms: &[u32]) -> &[u32]
    ensures { result.now ≡ good_part terms.now }
{
    if calendar::bad_terms(terms) {
        &terms[..0]
    } else {
        terms
    }
}

// One more in place k, where there is such a place.
pub(crate) fn bump(counts: &mut [u64], k: usize)
    ensures { FewCounts 4294967296 counts.old → counts.new ≡ bumped counts.old k }
{
    if k < counts.len() {
        let n = counts[k];
        // No walk comes to the greatest.
        if n < 18446744073709551615 {
            counts[k] = n + 1;
        }
    }
}

// Sets every count to 0.
pub fn clear(counts: &mut [u64])
    ensures { counts.new ≡ zeros (length counts.old) }
{
    for i in 0..counts.len() {
        counts[i] = 0;
    }
}
