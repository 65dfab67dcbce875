// The library for callers in other languages: a slice is a pointer and a length.
#![tactic(auto)]

ghost use Rattle.std.specs.Prelude.{◌≡◌, ◌↔◌, [], ◌∷◌, ◌≤◌, length};
ghost use Rattle.syntax.specs.Answer.{document_limits, read_within, answer_of, table_of};
ghost use Rattle.definitions.specs.Accepting.{read_schema};
ghost use Rattle.schema.specs.Dates.{dates_of, Spans};
ghost use Rattle.schema.specs.Checking.{check_answer, check_table, Meeting, check_moments};
ghost use Rattle.schema.specs.Paths.{check_path, list_after, path_words, short_answer, by_list};
ghost use Rattle.comparison.specs.Comparing.{Compares, compare_table};
ghost use Rattle.writer.specs.Compact.{compact_answer, compact_buffer};
ghost use Rattle.counterexample.specs.Counterexample.{Promises, table_unless_short};
ghost use Rattle.teleport_c.specs.Words.{answer_words, code, Written};

use schema::PATH_WORDS;

// The four numbers of an answer.
fn words(a: syntax::Answer) -> [u32; 4]
    ensures { result ≡ answer_words a }
{
    [a.code, a.text, a.place, a.other]
}

// Read (01, "Three services").
#[unsafe(no_mangle)]
pub extern "C" fn teleport_read(text: &[u8], table: &mut [u32], answer: &mut [u32; 4])
    ensures answers { answer.new ≡ answer_words (answer_of 1 (length table.old) (read_within document_limits text.now)) }
    ensures rows { table.new ≡ table_of table.old (read_within document_limits text.now) }
{
    *answer = words(reader::read(text, table));
}

// Check: a document and a schema, with a table for each.
#[unsafe(no_mangle)]
pub extern "C" fn teleport_check(
    document: &[u8],
    schema: &[u8],
    table1: &mut [u32],
    table2: &mut [u32],
    answer: &mut [u32; 4],
)
    ensures answers { answer.new ≡ answer_words (check_answer (length table1.old) (length table2.old) document.now schema.now) }
    ensures rows1 { table1.new ≡ check_table table1.old (length table2.old) document.now schema.now }
    ensures rows2 { table2.new ≡ table_of table2.old (read_schema schema.now) }
    ensures meets { (code answer.new ≡ 0) ↔ Meeting (length table1.old) (length table2.old) document.now schema.now }
{
    let mut dates = [0i64; 3];
    let mut path = [0u32; PATH_WORDS];
    let r = schema::check(document, schema, table1, table2, &mut dates, &mut path);
    *answer = words(r.answer);
}

// Check, and the dates of the document (02, L3): how many, the earliest and the latest.
#[unsafe(no_mangle)]
pub extern "C" fn teleport_check_dates(
    document: &[u8],
    schema: &[u8],
    table1: &mut [u32],
    table2: &mut [u32],
    answer: &mut [u32; 4],
    dates: &mut [i64; 3],
)
    ensures answers { answer.new ≡ answer_words (check_answer (length table1.old) (length table2.old) document.now schema.now) }
    ensures rows1 { table1.new ≡ check_table table1.old (length table2.old) document.now schema.now }
    ensures rows2 { table2.new ≡ table_of table2.old (read_schema schema.now) }
    ensures meets { (code answer.new ≡ 0) ↔ Meeting (length table1.old) (length table2.old) document.now schema.now }
    ensures dated { dates.new ≡ dates_of (check_moments (length table1.old) (length table2.old) document.now schema.now) }
    ensures spans { Spans (check_moments (length table1.old) (length table2.old) document.now schema.now) dates.new }
{
    let mut path = [0u32; PATH_WORDS];
    let r = schema::check(document, schema, table1, table2, dates, &mut path);
    *answer = words(r.answer);
}

// Check, and the path to its mismatch (02, L11): the rows from the value at the place up to 0, and how many.
#[unsafe(no_mangle)]
pub extern "C" fn teleport_check_path(
    document: &[u8],
    schema: &[u8],
    table1: &mut [u32],
    table2: &mut [u32],
    path: &mut [u32],
    answer: &mut [u32; 4],
    steps: &mut [u32; 1],
)
    ensures answers { answer.new ≡ answer_words (by_list (length path.old) short_answer (check_answer (length table1.old) (length table2.old) document.now schema.now)) }
    ensures rows1 { table1.new ≡ by_list (length path.old) table1.old (check_table table1.old (length table2.old) document.now schema.now) }
    ensures rows2 { table2.new ≡ by_list (length path.old) table2.old (table_of table2.old (read_schema schema.now)) }
    ensures meets { path_words ≤ length path.old → (code answer.new ≡ 0) ↔ Meeting (length table1.old) (length table2.old) document.now schema.now }
    ensures paths { path.new ≡ list_after (by_list (length path.old) [] (check_path (length table1.old) (length table2.old) document.now schema.now)) path.old }
    ensures stepped { steps.new ≡ length (by_list (length path.old) [] (check_path (length table1.old) (length table2.old) document.now schema.now)) ∷ [] }
{
    let mut dates = [0i64; 3];
    let r = schema::check(document, schema, table1, table2, &mut dates, path);
    *answer = words(r.answer);
    *steps = [r.steps];
}

// Compare: a new schema and an old one, with a table for each.
#[unsafe(no_mangle)]
pub extern "C" fn teleport_compare(
    new: &[u8],
    old: &[u8],
    table1: &mut [u32],
    table2: &mut [u32],
    answer: &mut [u32; 4],
)
    ensures compares { Written (Compares (length table1.old) (length table2.old) new.now old.now) answer.new }
    ensures rows1 { table1.new ≡ table_of table1.old (read_schema new.now) }
    ensures rows2 { table2.new ≡ compare_table (length table1.old) table2.old new.now old.now }
{
    *answer = words(comparison::compare(new, old, table1, table2));
}

// Compact (02, L6): a text and a table, and a buffer for its one spelling.
#[unsafe(no_mangle)]
pub extern "C" fn teleport_compact(
    text: &[u8],
    table: &mut [u32],
    buffer: &mut [u8],
    answer: &mut [u32; 4],
)
    ensures answers { answer.new ≡ answer_words (compact_answer (length table.old) (length buffer.old) text.now) }
    ensures rows { table.new ≡ table_of table.old (read_within document_limits text.now) }
    ensures writes { buffer.new ≡ compact_buffer (length table.old) buffer.old text.now }
{
    *answer = words(writer::compact(text, table, buffer));
}

// Compare's sister (02, L1): with a buffer for a document that meets the new schema and fails the old.
#[unsafe(no_mangle)]
pub extern "C" fn teleport_counterexample(
    new: &[u8],
    old: &[u8],
    table1: &mut [u32],
    table2: &mut [u32],
    buffer: &mut [u8],
    answer: &mut [u32; 4],
)
    ensures promises { Written (λ r. Promises (length table1.old) (length table2.old) new.now old.now r buffer.old buffer.new) answer.new }
    ensures rows1 { table1.new ≡ table_unless_short (length buffer.old) table1.old (table_of table1.old (read_schema new.now)) }
    ensures rows2 { table2.new ≡ table_unless_short (length buffer.old) table2.old (compare_table (length table1.old) table2.old new.now old.now) }
{
    *answer = words(counterexample::counterexample(new, old, table1, table2, buffer));
}
