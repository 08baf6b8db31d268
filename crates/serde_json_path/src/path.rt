//! Paths.

ghost use Rattle.std.specs.Prelude.{◌≡◌, [], IfOk, IfErr, IsTrue, ◌↔◌};
ghost use Rattle.serde_json_path.specs.Words.{view, located_nodes, node_values, query, root, no_segments, tree_of, signatures_of, rule_of, bound, pairs_of, value_in, OnlyMemoryOrPattern, Selects, SelectsValues, rest, query_of, set_of, document_of, Fits, whole_numbers, before_builtin, builtin_functions, numbers_view, Memory};

use crate::source::parse_source;
use serde_json::Value;
use serde_json_path_core::functions::{Both, Builtin, CachedPatterns, Functions, PatternStore};
use serde_json_path_core::{
    Binding, Checked, Numbers, QueryError, Walk, evaluate, evaluate_located, walk,
};
use serde_json_path_nodes::{LocatedNodeList, NodeList};
use serde_json_path_parser::{ParseError, TextSource};
use std::alloc::{AllocError, Global};

/// A JSONPath (RFC 9535), and how its comparisons take numbers.
///
/// ```text
/// let path = JsonPath::parse(alloc, "$.foo.bar[0]")?;
/// for node in path.query_located(alloc, &document)?.iter() {
///     println!(rt; "{}", node.location())?;
/// }
/// ```
#[derive(Drop)]
pub struct JsonPath {
    pub(crate) checked: Checked,
}

impl JsonPath {
    ghost use Rattle.serde_json_path.specs.Paths.{IsRead, path_tree, path_signatures, path_rule, with_rule_of};

    /// The path `$`, which selects the document itself. It calls nothing, so it fits every function set. It allocates nothing.
    pub fn new(alloc: Global) -> JsonPath
        ensures tree { path_tree result ≡ query root no_segments }
        ensures no_calls { path_signatures result ≡ [] }
        ensures fits { Fits builtin_functions (path_signatures result) }
        ensures rule { path_rule result ≡ whole_numbers }
    {
        JsonPath {
            checked: Checked::new(alloc),
        }
    }

    /// Parses a path (RFC 9535, section 2.1) whose filters call the built-in functions. Its comparisons take whole numbers
    /// alone, unless [`JsonPath::with_numbers`] says otherwise.
    ///
    /// An error says why and where ([`ParseError`]). Any error other than `NoMemory` means that the text is not a path.
    ///
    /// ```text
    /// let path = JsonPath::parse(alloc, "$.store.book[?@.isbn].title")?;
    /// ```
    pub fn parse(alloc: Global, path_str: &str) -> Result<JsonPath, ParseError>
        ensures { IsRead whole_numbers builtin_functions path_str.now result }
    {
        JsonPath::parse_by(alloc, path_str, Numbers::Whole)
    }

    /// Parses a path by a rule for numbers, which the path keeps. Filters call the built-in functions; for those of a set, see
    /// [`parse_source`].
    ///
    /// By `Numbers::Whole` this is `parse`. By `Numbers::All` any literal may be an argument of a function, as the RFC has it
    /// (RFC 9535, section 2.4.3), and comparisons take all numbers.
    ///
    /// ```text
    /// let path = JsonPath::parse_by(alloc, "$[?length(@.name) > 1.5]", Numbers::All)?;
    /// ```
    pub fn parse_by(alloc: Global, path_str: &str, numbers: Numbers) -> Result<JsonPath, ParseError>
        ensures { IsRead (numbers_view numbers) builtin_functions path_str.now result }
    {
        let mut source = TextSource::new(path_str);
        parse_source(alloc, &mut source, &Builtin, numbers)
    }

    /// Parses a path, as `parse` does. This is not `std::str::FromStr`, because it takes an allocator.
    pub fn from_str(alloc: Global, path_str: &str) -> Result<JsonPath, ParseError>
        ensures { IsRead whole_numbers builtin_functions path_str.now result }
    {
        JsonPath::parse(alloc, path_str)
    }

    /// Parses a path whose filters may call the functions of a set as well as the built-in ones. If both define a name, the
    /// set's function is used.
    ///
    /// ```text
    /// let path = JsonPath::parse_with(alloc, "$[?first(@.*) == 4]", &functions)?;
    /// let nodes = path.query_with(alloc, &document, &functions)?;
    /// ```
    pub fn parse_with<F: Functions>(
        alloc: Global,
        path_str: &str,
        functions: &F,
    ) -> Result<JsonPath, ParseError>
        ensures { IsRead whole_numbers (before_builtin (F.set functions.now)) path_str.now result }
    {
        let mut source = TextSource::new(path_str);
        parse_source(alloc, &mut source, functions, Numbers::Whole)
    }

    /// The same path, whose comparisons take numbers by that rule (RFC 9535, section 2.3.5.2.2).
    ///
    /// ```text
    /// let path = JsonPath::parse(alloc, "$[?@.price > 9.99]")?.with_numbers(Numbers::All);
    /// ```
    pub fn with_numbers(self, numbers: Numbers) -> JsonPath
        ensures tree { path_tree result ≡ path_tree self }
        ensures used { path_signatures result ≡ path_signatures self }
        ensures rule { path_rule result ≡ numbers_view numbers }
    {
        JsonPath {
            checked: self.checked.with_numbers(numbers),
        }
    }

    /// How the comparisons of the path take numbers.
    pub fn numbers(&self) -> Numbers
        ensures { numbers_view result ≡ path_rule self.now }
    {
        self.checked.numbers()
    }

    /// A copy of the path, with the signatures that it keeps, so it fits the same function sets, and with its rule for numbers.
    ///
    /// An error comes only where memory is refused.
    pub fn try_clone(&self, alloc: Global) -> Result<JsonPath, AllocError>
        ensures tree { IfOk result (λ copy. path_tree copy ≡ path_tree self.now) }
        ensures used { IfOk result (λ copy. path_signatures copy ≡ path_signatures self.now) }
        ensures rule { IfOk result (λ copy. path_rule copy ≡ path_rule self.now) }
    {
        Ok(JsonPath {
            checked: self.checked.try_clone(alloc)?,
        })
    }

    /// A copy of the path with values for texts: each literal of its filters (RFC 9535, section 2.3.5.1) whose text has a binding
    /// stands for the value of the first one of that text. So a text from a stranger comes into a path without being pasted into
    /// its source. Names of members stay as they are, and so do the signatures and the rule for numbers.
    ///
    /// An error comes only where memory is refused.
    ///
    /// ```text
    /// let path = JsonPath::parse(alloc, "$..book[?@.title == '$title'].price")?;
    /// let path = path.bound(alloc, &[Binding { text: "$title", value: title }])?;
    /// ```
    pub fn bound(&self, alloc: Global, bindings: &[Binding<'_>]) -> Result<JsonPath, AllocError>
        ensures tree { IfOk result (λ copy.
            path_tree copy ≡ bound (value_in (pairs_of bindings.now)) (path_tree self.now)) }
        ensures used { IfOk result (λ copy. path_signatures copy ≡ path_signatures self.now) }
        ensures rule { IfOk result (λ copy. path_rule copy ≡ path_rule self.now) }
    {
        Ok(JsonPath {
            checked: self.checked.bound(alloc, bindings)?,
        })
    }

    /// Whether every function that the path calls is declared, by the set or else by the built-in functions, with the
    /// signature that it had when the path was parsed (RFC 9535, section 2.4.3). It allocates nothing.
    pub fn fits<F: Functions>(&self, functions: &F) -> bool
        ensures { IsTrue result
            ↔ Fits (before_builtin (F.set functions.now)) (path_signatures self.now) }
    {
        self.checked.fits(&Both(functions, Builtin))
    }

    /// The syntax tree of the path, with the signatures and the rule for numbers that it keeps.
    pub fn tree(&self) -> &Checked
        ensures tree { tree_of result.now ≡ path_tree self.now }
        ensures used { signatures_of result.now ≡ path_signatures self.now }
        ensures rule { rule_of result.now ≡ path_rule self.now }
    {
        &self.checked
    }

    /// The nodes that the path selects from a document, with their locations, in order (RFC 9535, section 2.1.2). The path
    /// must fit the built-in functions, as a path of `parse` does.
    ///
    /// The nodes and the names of their locations borrow from the document. The error is `Pattern` only if some call of `match`
    /// or `search` has a pattern that `regex` reads; otherwise it is `Memory`.
    pub fn query_located<'b>(
        &self,
        alloc: Global,
        value: &'b Value,
    ) -> Result<LocatedNodeList<'b>, QueryError>
        requires { Fits builtin_functions (path_signatures self.now) }
        ensures selects { IfOk result (λ list.
            Selects (with_rule_of self.now builtin_functions) (path_tree self.now)
            (view value.now) (located_nodes list)) }
        ensures refused { OnlyMemoryOrPattern (with_rule_of self.now builtin_functions)
            (path_tree self.now) (view value.now) result }
    {
        let store = PatternStore::new();
        let builtin = CachedPatterns::new(alloc, &store);
        evaluate_located(alloc, &self.checked, value, builtin)
    }

    /// The nodes that the path selects from a document, with their locations, in order, as `query_located` gives them. The
    /// path must fit the set combined with the built-in functions (see `fits`). The error is `Pattern` only if some call of
    /// `match` or `search`, under whatever name, has a pattern that `regex` reads; otherwise it is `Memory`.
    pub fn query_located_with<'b, F: Functions>(
        &self,
        alloc: Global,
        value: &'b Value,
        functions: &F,
    ) -> Result<LocatedNodeList<'b>, QueryError>
        requires { Fits (before_builtin (F.set functions.now)) (path_signatures self.now) }
        ensures selects { IfOk result (λ list.
            Selects (with_rule_of self.now (before_builtin (F.set functions.now)))
            (path_tree self.now) (view value.now) (located_nodes list)) }
        ensures refused { OnlyMemoryOrPattern
            (with_rule_of self.now (before_builtin (F.set functions.now))) (path_tree self.now)
            (view value.now) result }
    {
        let store = PatternStore::new();
        let builtin = CachedPatterns::new(alloc, &store);
        evaluate_located(alloc, &self.checked, value, Both(functions, builtin))
    }

    /// The nodes that the path selects from a document, in order, without their locations. Errors are as those of
    /// `query_located`.
    ///
    /// ```text
    /// let path = JsonPath::parse(alloc, "$..book[-1:].title")?;
    /// let last = path.query(alloc, &document)?.exactly_one();
    /// ```
    pub fn query<'b>(&self, alloc: Global, value: &'b Value) -> Result<NodeList<'b>, QueryError>
        requires { Fits builtin_functions (path_signatures self.now) }
        ensures selects { IfOk result (λ list.
            SelectsValues (with_rule_of self.now builtin_functions) (path_tree self.now)
            (view value.now) (node_values list)) }
        ensures refused { OnlyMemoryOrPattern (with_rule_of self.now builtin_functions)
            (path_tree self.now) (view value.now) result }
    {
        let store = PatternStore::new();
        let builtin = CachedPatterns::new(alloc, &store);
        evaluate(alloc, &self.checked, value, builtin)
    }

    /// The nodes that the path selects from a document, in order, without their locations. The path must fit the set
    /// combined with the built-in functions (see `fits`). Errors are as those of `query_located_with`.
    pub fn query_with<'b, F: Functions>(
        &self,
        alloc: Global,
        value: &'b Value,
        functions: &F,
    ) -> Result<NodeList<'b>, QueryError>
        requires { Fits (before_builtin (F.set functions.now)) (path_signatures self.now) }
        ensures selects { IfOk result (λ list.
            SelectsValues (with_rule_of self.now (before_builtin (F.set functions.now)))
            (path_tree self.now) (view value.now) (node_values list)) }
        ensures refused { OnlyMemoryOrPattern
            (with_rule_of self.now (before_builtin (F.set functions.now))) (path_tree self.now)
            (view value.now) result }
    {
        let store = PatternStore::new();
        let builtin = CachedPatterns::new(alloc, &store);
        evaluate(alloc, &self.checked, value, Both(functions, builtin))
    }

    /// A walk over the nodes that the path selects from a document, one at a time. The path must fit the set combined with
    /// the built-in functions (see `fits`), which keep no patterns here: `walk_under` takes a set that does. Making the walk
    /// fails only if memory is refused. A loop over a walk is proved to end by the measure `steps_of walk`.
    ///
    /// ```text
    /// let mut walk = path.walk(alloc, &document, &functions)?;
    /// while let Some(node) = walk.next()? {
    ///     println!(rt; "{}", node.location())?;
    /// }
    /// ```
    pub fn walk<'q, 'b, F: Functions>(
        &'q self,
        alloc: Global,
        value: &'b Value,
        functions: &'q F,
    ) -> Result<Walk<'q, 'b, Both<&'q F, Builtin>>, QueryError>
        requires { Fits (before_builtin (F.set functions.now)) (path_signatures self.now) }
        ensures selects { IfOk result (λ walk.
            Selects (with_rule_of self.now (before_builtin (F.set functions.now)))
            (path_tree self.now) (view value.now) (rest walk)) }
        ensures query { IfOk result (λ walk. query_of walk ≡ path_tree self.now) }
        ensures set { IfOk result (λ walk. set_of walk
            ≡ with_rule_of self.now (before_builtin (F.set functions.now))) }
        ensures document { IfOk result (λ walk. document_of walk ≡ view value.now) }
        ensures refused { IfErr result (λ e. e ≡ Memory) }
    {
        self.walk_under(alloc, value, Both(functions, Builtin))
    }

    /// A walk as `walk` makes it, under a function set alone, which the walk keeps: the built-in functions are there only if
    /// the set has them. So a set that keeps patterns can stand in the place of the built-in functions.
    ///
    /// ```text
    /// let store = PatternStore::new();
    /// let functions = Both(&own, CachedPatterns::new(alloc, &store));
    /// let mut walk = path.walk_under(alloc, &document, functions)?;
    /// ```
    pub fn walk_under<'q, 'b, F: Functions + Drop>(
        &'q self,
        alloc: Global,
        value: &'b Value,
        functions: F,
    ) -> Result<Walk<'q, 'b, F>, QueryError>
        requires { Fits (F.set functions) (path_signatures self.now) }
        ensures selects { IfOk result (λ walk.
            Selects (with_rule_of self.now (F.set functions)) (path_tree self.now)
            (view value.now) (rest walk)) }
        ensures query { IfOk result (λ walk. query_of walk ≡ path_tree self.now) }
        ensures set { IfOk result (λ walk.
            set_of walk ≡ with_rule_of self.now (F.set functions)) }
        ensures document { IfOk result (λ walk. document_of walk ≡ view value.now) }
        ensures refused { IfErr result (λ e. e ≡ Memory) }
    {
        walk(alloc, &self.checked, value, functions)
    }
}
