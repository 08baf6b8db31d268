//! Forms of output, coloured lines, command lines, files of paths, documents, and runs of `jpq` over inputs and writers in memory.
//! Reports, also under a set, and runs of `jsonpath`.

mod by_clauses;
mod colours;
mod cuts;
mod documents;
mod forms;
mod inputs;
mod jpq_failing;
mod jpq_runs;
mod jsonpath_failing;
mod jsonpath_runs;
mod options;
mod paths;
mod refusals;
mod refused_memory;
mod reported_documents;
mod reports;
mod streamed;
