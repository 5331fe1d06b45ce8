//! What was looked ahead before.
ghost use Rattle.std.specs.Prelude.{◌≡◌, ℕ, ◌<◌, ℤ, List, [], true, length, IfOk, IfSome};
ghost use Rattle.dp_spec.specs.declared.span.Span.{Span as PlainSpan};
ghost use Rattle.dp_pomdp.specs.Memos.{AreKept, IsKept, kept_look};

use dp_base::Memory;
use dp_spec::Span;
use std::alloc::Global;

/// How many buckets are tried for a key.
const TRIES: usize = 4;

/// What the bits of a key are spread by, an odd number.
const SPREAD: u128 = 0x9E37_79B9_7F4A_7C15_F39C_C060_5CED_C835;

// What is kept of weights, for a number of steps that are left and a look.
#[derive(Drop)]
struct Entry {
    rest: u32,
    look: u32,
    weights: Vec<Span>,
    values: Vec<i128>,
}

impl std::marker::Model for Entry {
    ghost use Rattle.dp_pomdp.specs.Memos.{KeptLook, kept_look};

    ghost Value = { KeptLook };

    ghost view = { λ e. kept_look e.rest e.look e.weights.items e.values.items };
}

impl Entry {
    fn of(
        alloc: Global,
        rest: u32,
        look: u32,
        weights: &[Span],
        values: &[i128],
    ) -> Result<Entry, Memory>
        ensures { IfOk result (λ e. e ≡ kept_look rest look weights.now values.now) }
    {
        let mut own_weights = Vec::new(alloc);
        own_weights.extend_from_slice(weights)?;
        let mut own_values = Vec::new(alloc);
        own_values.extend_from_slice(values)?;
        Ok(Entry {
            rest,
            look,
            weights: own_weights,
            values: own_values,
        })
    }

    // The bits of its key, spread.
    fn spread(&self) -> usize {
        spread_of(self.rest, self.look, &self.weights)
    }

    // What is kept, where it is of these.
    fn values_of(&self, rest: u32, look: u32, weights: &[Span]) -> Option<&[i128]>
        ensures { IfSome result (λ v. self.now ≡ kept_look rest look weights.now v.now) }
    {
        if self.rest == rest && self.look == look && are_same(&self.weights, weights) {
            Some(&self.values)
        } else {
            None
        }
    }
}

// Whether two lists of spans are the same.
fn are_same(some: &[Span], others: &[Span]) -> bool
    ensures { result ≡ true → some.now ≡ others.now }
{
    if some.len() != others.len() {
        return false;
    }
    for at in 0..some.len() {
        if !is_same(some[at], others[at]) {
            return false;
        }
    }
    true
}

// Whether two spans are the same.
#[inline]
fn is_same(one: Span, other: Span) -> bool
    ensures { result ≡ true → one ≡ other }
{
    one == other
}

/// A memo of look-ahead, which keeps as much as it may. Contracts see the list of what it keeps.
#[derive(Drop)]
pub struct Memo {
    alloc: Global,
    // How many entries it may keep.
    most: usize,
    entries: Vec<Entry>,
    // For each bucket the place of an entry, or a number that is no place.
    buckets: Vec<usize>,
}

impl std::marker::Model for Memo {
    ghost use Rattle.std.specs.Prelude.{List};
    ghost use Rattle.dp_pomdp.specs.Memos.{KeptLook};

    ghost Value = { List KeptLook };

    ghost view = { λ m. m.entries.items };
}

impl Memo {
    /// A memo that keeps nothing yet, of at most so many entries. It takes no memory.
    pub fn new(alloc: Global, most: usize) -> Memo
        ensures { result ≡ [] }
    {
        Memo {
            alloc,
            most,
            entries: Vec::new(alloc),
            buckets: Vec::new(alloc),
        }
    }

    /// What is kept of weights, for a number of steps that are left and a look, if it is found.
    pub fn find(&self, rest: u32, look: u32, weights: &[Span]) -> Option<&[i128]>
        ensures { (f : ℕ → ℕ → List PlainSpan → List ℤ) → AreKept f self.now →
            IfSome result (λ v. v.now ≡ f rest look weights.now) }
    {
        let spread = spread_of(rest, look, weights);
        for step in 0..TRIES {
            if let Some(values) = self.found(spread, step, rest, look, weights) {
                return Some(values);
            }
        }
        None
    }

    // What is kept of these, where one of the buckets that are tried points to it.
    fn found(
        &self,
        spread: usize,
        step: usize,
        rest: u32,
        look: u32,
        weights: &[Span],
    ) -> Option<&[i128]>
        ensures { (f : ℕ → ℕ → List PlainSpan → List ℤ) → AreKept f self.now →
            IfSome result (λ v. v.now ≡ f rest look weights.now) }
    {
        let bucket = bucket_at(self.buckets.len(), spread, step)?;
        let place = self.buckets.get(bucket)?;
        let entry = self.entries.get(*place)?;
        entry.values_of(rest, look, weights)
    }

    /// Keeps what there is of weights, for a number of steps that are left and a look, where there is
    /// memory for it.
    pub fn keep(&mut self, rest: u32, look: u32, weights: &[Span], values: &[i128])
        ensures { (f : ℕ → ℕ → List PlainSpan → List ℤ) → AreKept f self.old →
            values.now ≡ f rest look weights.now → AreKept f self.new }
    {
        if let Ok(entry) = Entry::of(self.alloc, rest, look, weights, values) {
            let spread = spread_of(rest, look, weights);
            self.widen();
            let place = self.put(spread, entry);
            self.point(spread, place);
        }
    }

    // Keeps an entry, and gives its place. Where the memo is full it takes the place of another.
    fn put(&mut self, spread: usize, entry: Entry) -> usize
        ensures { (f : ℕ → ℕ → List PlainSpan → List ℤ) → AreKept f self.old → IsKept f entry →
            AreKept f self.new }
    {
        let count = self.entries.len();
        if count < self.most {
            let _ = self.entries.push(entry);
            return count;
        }
        match bucket_at(count, spread, 0) {
            Some(place) => {
                self.entries[place] = entry;
                place
            }
            None => count,
        }
    }

    // Lets a bucket of a key point to a place.
    fn point(&mut self, spread: usize, place: usize)
        ensures { self.new ≡ self.old }
    {
        point_to(&mut self.buckets, self.entries.len(), spread, place);
    }

    // Makes more buckets where there are too few, if there is memory for them.
    fn widen(&mut self)
        ensures { self.new ≡ self.old }
    {
        let count = self.entries.len();
        if self.buckets.len() / 2 > count {
            return;
        }
        if let Ok(buckets) = buckets_for(self.alloc, &self.entries) {
            self.buckets = buckets;
        }
    }
}

// Buckets that point to all entries, with room for as many more.
fn buckets_for(alloc: Global, entries: &[Entry]) -> Result<Vec<usize>, Memory> {
    let count = entries.len();
    let many = count.saturating_mul(4).saturating_add(63);
    let mut buckets = vec![in alloc; usize::MAX; many]?;
    for place in 0..count {
        let spread = entries[place].spread();
        point_to(&mut buckets, count, spread, place);
    }
    Ok(buckets)
}

// Lets a bucket of a key point to a place, one that points to none of `count` places if there is one.
fn point_to(buckets: &mut [usize], count: usize, spread: usize, place: usize) {
    if let Some(bucket) = free_bucket(buckets, count, spread) {
        buckets[bucket] = place;
    }
}

// A bucket to put a key into.
fn free_bucket(buckets: &[usize], count: usize, spread: usize) -> Option<usize>
    ensures { IfSome result (λ b. b < length buckets.now) }
{
    for step in 0..TRIES {
        let bucket = bucket_at(buckets.len(), spread, step)?;
        if buckets[bucket] >= count {
            return Some(bucket);
        }
    }
    bucket_at(buckets.len(), spread, 0)
}

// One of so many buckets for a key, of those that are tried.
fn bucket_at(count: usize, spread: usize, step: usize) -> Option<usize>
    ensures { IfSome result (λ b. b < count) }
{
    if count == 0 {
        return None;
    }
    Some(spread.wrapping_add(step) % count)
}

// The bits of a key, spread. Buckets are chosen by 64 bits, which divide many times as fast as 128.
fn spread_of(rest: u32, look: u32, weights: &[Span]) -> usize {
    let mut spread = u128::from(rest)
        .wrapping_mul(64)
        .wrapping_add(u128::from(look));
    for weight in weights {
        spread = (spread ^ weight.high.unsigned_abs()).wrapping_mul(SPREAD);
        spread ^= spread >> 64;
    }
    (spread % (1 << 64)) as usize
}
