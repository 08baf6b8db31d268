//! The built-in functions, which keep the patterns that they read.

ghost use Rattle.std.specs.Prelude.{◌≡◌, ◌≤◌, IfOk, IfSome, Err, vec_len};
ghost use Rattle.serde_json_path_functions.specs.Words.{IsReadable, builtin_functions, matching_view, IsOf};
ghost use Rattle.serde_json_path_functions.specs.Kept.{IsKeptLast, IsTakenOf};
ghost use Rattle.serde_json_path_functions.specs.Patterns as spec;
ghost use Rattle.serde_json_path_functions.specs.declared.cached.TheConstants.{MOST_MATCHERS, MOST_RECENT};
ghost use Rattle.serde_json_path_functions.specs.declared.error.QueryError.TheVariants.{Pattern};

use crate::builtin::{Builtin, answer_by};
use crate::error::QueryError;
use crate::patterns::{FindsPatterns, Matching, PatternMatcher, ReadPattern};
use crate::set::Functions;
use crate::signature::Signature;
use crate::types::FunctionValue;
use std::alloc::Global;
use std::cell::{OnceCell, RefCell};

/// How many patterns are kept with a matcher. Few paths have more; each matcher takes memory, and a look-up goes through all.
const MOST_MATCHERS: usize = 8;

/// How many more patterns are kept, without their matchers.
const MOST_RECENT: usize = 8;

/// Where a [`CachedPatterns`] puts the patterns whose matchers it keeps: matchers borrow, so the store outlives the set.
///
/// It takes no memory of its own, and holds at most eight patterns until it is dropped. Use a store for one set: a second one
/// gets only the places that the first left free, and keeps its other patterns without matchers.
pub struct PatternStore {
    places: [OnceCell<ReadPattern>; MOST_MATCHERS],
}

// Written out, so that a caller's proof sees one call and not the drop of each field.
impl Drop for PatternStore {
    fn drop(self) {
        let PatternStore { places: _places } = self;
    }
}

impl PatternStore {
    /// An empty store. Takes no memory.
    pub fn new() -> PatternStore {
        PatternStore {
            places: std::array::from_fn(|_| OnceCell::new()),
        }
    }

    /// Puts a pattern into the first free place and lends it from there, or gives it back if no place is free.
    fn put(&self, pattern: ReadPattern) -> Result<Option<&ReadPattern>, ReadPattern> {
        let mut pattern = pattern;
        for place in self.places.iter() {
            match place.set(pattern) {
                Ok(()) => return Ok(place.get()),
                Err(back) => pattern = back,
            }
        }
        Err(pattern)
    }
}

/// The patterns that a set keeps.
#[derive(Drop)]
struct KeptPatterns<'p> {
    /// Where patterns are put whose matchers are kept, if they are.
    store: Option<&'p PatternStore>,
    /// Those that were asked first, until the store is full.
    matchers: Vec<PatternMatcher<'p>>,
    /// The others, the one last asked at the end.
    recent: Vec<ReadPattern>,
    ghost few_matchers: { vec_len matchers ≤ MOST_MATCHERS },
    ghost few_recent: { vec_len recent ≤ MOST_RECENT },
}

impl<'p> KeptPatterns<'p> {
    /// Whether a text matches, by a matcher that is kept; `None` for a pattern without one.
    fn found_by_matcher(&mut self, matching: Matching, pattern: &str, text: &str) -> Option<bool>
        ensures { IfSome result (λ found.
            found ≡ spec.is_found (spec.built_text (matching_view matching) pattern.now) text.now) }
    {
        for matcher in self.matchers.iter_mut() {
            if matcher.pattern.is_of(matching, pattern) {
                return Some(matcher.is_found(text));
            }
        }
        None
    }

    /// A pattern, taken out of the recent ones or read anew.
    fn take(
        &mut self,
        alloc: Global,
        matching: Matching,
        pattern: &str,
    ) -> Result<ReadPattern, QueryError>
        ensures of { IfOk result (IsOf (matching_view matching) pattern.now) }
        ensures taken { IfOk result (λ read.
            IsTakenOf read self.old.recent.items self.new.recent.items) }
        ensures refused { result ≡ Err Pattern
            → IsReadable (spec.built_text (matching_view matching) pattern.now) }
    {
        for place in 0..self.recent.len() {
            if self.recent[place].is_of(matching, pattern) {
                return Ok(self.recent.remove(place));
            }
        }
        ReadPattern::new(alloc, matching, pattern)
    }

    /// Keeps a pattern as the last used. If there are too many, the least recently used one is dropped. If memory is refused,
    /// the pattern is not kept.
    fn keep_recent(&mut self, pattern: ReadPattern)
        ensures { IsKeptLast pattern self.old.recent.items self.new.recent.items }
    {
        if self.recent.len() >= MOST_RECENT {
            drop(self.recent.remove(0));
        }
        let _ = self.recent.push(pattern);
    }

    /// Keeps a pattern with a matcher, or as the last used if the store is full or there is none. If memory for the matcher is
    /// refused, the pattern stays in the store unused, and a later call reads it again.
    ///
    /// Not inlined: a matcher is large, and would widen the caller's stack frame.
    #[inline(never)]
    fn keep(&mut self, alloc: Global, pattern: ReadPattern) {
        let put = match self.store {
            Some(store) if self.matchers.len() < MOST_MATCHERS => store.put(pattern),
            _ => Err(pattern),
        };
        match put {
            Ok(None) => {}
            Ok(Some(pattern)) => {
                if let Ok(matcher) = PatternMatcher::new(alloc, pattern) {
                    let _ = self.matchers.push(matcher);
                }
            }
            Err(pattern) => self.keep_recent(pattern),
        }
    }

    /// Whether a text matches a pattern whose matcher is not kept. The pattern is kept for the next call, if there is memory.
    #[cold]
    #[inline(never)]
    fn found_otherwise(
        &mut self,
        alloc: Global,
        matching: Matching,
        pattern: &str,
        text: &str,
    ) -> Result<bool, QueryError>
        ensures means { IfOk result (λ found.
            found ≡ spec.is_found (spec.built_text (matching_view matching) pattern.now) text.now) }
        ensures refused { result ≡ Err Pattern
            → IsReadable (spec.built_text (matching_view matching) pattern.now) }
    {
        let read = self.take(alloc, matching, pattern)?;
        let found = read.is_found(alloc, text)?;
        self.keep(alloc, read);
        Ok(found)
    }
}

/// The built-in functions, where `match` and `search` do not read a pattern again while it is kept.
///
/// Its answers are those of [`Builtin`]. It keeps the first eight patterns with their matchers, and eight more patterns, of
/// which the least recently used goes first. A pattern that `regex` cannot read is kept as such. If memory
/// to keep one is refused, a later call reads it again. All goes when the set and its store are dropped.
///
/// ```text
/// let store = PatternStore::new();
/// let functions = CachedPatterns::new(alloc, &store);
/// let walk = path.walk(alloc, &document, &functions)?;
/// ```
pub struct CachedPatterns<'p> {
    kept: RefCell<KeptPatterns<'p>>,
}

// Written out, for the same reason as that of `PatternStore`.
impl<'p> Drop for CachedPatterns<'p> {
    fn drop(self) {
        let CachedPatterns { kept: _kept } = self;
    }
}

impl<'p> CachedPatterns<'p> {
    /// The functions, before they have read a pattern. Takes no memory.
    pub fn new(alloc: Global, store: &'p PatternStore) -> CachedPatterns<'p> {
        CachedPatterns {
            kept: RefCell::new(KeptPatterns {
                store: Some(store),
                matchers: Vec::new(alloc),
                recent: Vec::new(alloc),
            }),
        }
    }

    /// The functions without a store, which borrow nothing: the last eight patterns are kept, without their matchers. Takes no
    /// memory.
    pub fn without_store(alloc: Global) -> CachedPatterns<'static> {
        CachedPatterns {
            kept: RefCell::new(KeptPatterns {
                store: None,
                matchers: Vec::new(alloc),
                recent: Vec::new(alloc),
            }),
        }
    }
}

impl<'p> FindsPatterns for CachedPatterns<'p> {
    fn is_found(
        &self,
        alloc: Global,
        matching: Matching,
        pattern: &str,
        text: &str,
    ) -> Result<bool, QueryError> {
        match self.kept.try_borrow_mut() {
            Ok(mut kept) => match kept.found_by_matcher(matching, pattern, text) {
                Some(found) => Ok(found),
                None => kept.found_otherwise(alloc, matching, pattern, text),
            },
            // Nothing that runs under the borrow calls this set, so it never comes to this.
            Err(_) => Builtin.is_found(alloc, matching, pattern, text),
        }
    }
}

impl<'p> Functions for CachedPatterns<'p> {
    ghost use Rattle.serde_json_path_functions.specs.Inside.BuiltinTypes.{builtin_keeps_types, builtin_keeps_patterns};

    ghost set = { λ _. builtin_functions };

    ghost typed = { λ _. builtin_keeps_types };

    ghost patterned = { λ _. builtin_keeps_patterns };

    fn signature(&self, name: &str) -> Option<Signature> {
        Builtin.signature(name)
    }

    fn declares(&self, name: &str) -> bool {
        Builtin.declares(name)
    }

    fn call<'b>(
        &self,
        alloc: Global,
        name: &str,
        args: Vec<FunctionValue<'b>>,
    ) -> Result<FunctionValue<'b>, QueryError> {
        answer_by(self, alloc, name, args)
    }
}
