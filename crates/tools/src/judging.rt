// The commands over a document and a schema.
use console::{Excerpt, Numbers, line, print_line};
use schema::PATH_WORDS;

// Room for every pointer: each byte of the document gives at most two.
const POINTER: usize = 131072;

// Texts and tables are parameters of their own, here and in `explain`, as those of the services are, whose C interface has them so: a struct would be
// taken apart again at once.

// `dates DOCUMENT SCHEMA`. On 0 the second line is how many dates there are, the earliest and the latest.
pub fn dates(
    rt: &impl Print,
    document: &[u8],
    schema: &[u8],
    table1: &mut [u32],
    table2: &mut [u32],
) {
    let mut dates = [0i64; 3];
    let mut path = [0u32; PATH_WORDS];
    let answer = schema::check(document, schema, table1, table2, &mut dates, &mut path).answer;
    print_line(rt, answer);
    if answer.code == 0 {
        print_line(rt, Numbers(dates));
    }
}

// `explain DOCUMENT SCHEMA`. On 20 to 22 the second line is the path to the value as a JSON Pointer, and then come the lines of both texts with a
// mark under the place. Names may be twice as long in the pointer as in the document, by `~`.
pub fn explain(
    rt: &impl Print,
    document: &[u8],
    schema: &[u8],
    table1: &mut [u32],
    table2: &mut [u32],
) {
    let mut pointer = [0u8; POINTER];
    let explained = explain::explain(document, schema, table1, table2, &mut pointer);
    let answer = explained.answer;
    print_line(rt, answer);
    let Some(misfit) = Misfit::from_code(answer.code) else {
        return;
    };
    let length = explained.length.min(POINTER);
    line(rt, &pointer[..length]);
    Excerpt {
        text: document,
        name: b"document",
        place: answer.place,
        words: misfit.of_document(),
    }
    .print(rt);
    Excerpt {
        text: schema,
        name: b"schema",
        place: answer.other,
        words: misfit.of_schema(),
    }
    .print(rt);
}

// Why a value does not fit.
#[derive(Clone, Copy, Debug, PartialEq, Eq)]
enum Misfit {
    Kind,
    Name,
    Date,
}

impl Misfit {
    // What Check tells by a code, 20 to 22.
    fn from_code(code: u32) -> Option<Self> {
        match code {
            20 => Some(Misfit::Kind),
            21 => Some(Misfit::Name),
            22 => Some(Misfit::Date),
            _ => None,
        }
    }

    // What is said of the document, as bytes, which `Excerpt` takes.
    fn of_document(self) -> &'static [u8] {
        match self {
            Misfit::Kind => b"this value is of the wrong kind",
            Misfit::Name => b"this object lacks a required name",
            Misfit::Date => b"this string is no date",
        }
    }

    // What is said of the schema.
    fn of_schema(self) -> &'static [u8] {
        match self {
            Misfit::Name => b"the required name",
            Misfit::Kind | Misfit::Date => b"the definition",
        }
    }
}
