// What a text is held to.
ghost use Rattle.std.specs.Prelude.{◌≡◌};
ghost use Rattle.syntax.specs.Answer.{document_limits, schema_limits};

// Its bytes, and how many brackets may be open at once.
#[derive(Clone, Copy, Debug, PartialEq, Eq)]
pub struct Limits {
    pub bytes: u32,
    pub depth: u32,
}

impl Limits {
    // 01, "Numbers": a document.
    pub fn document() -> Self
        ensures { result ≡ document_limits }
    {
        Self {
            bytes: 65536,
            depth: 32,
        }
    }

    // 01, "Numbers": a schema.
    pub fn schema() -> Self
        ensures { result ≡ schema_limits }
    {
        Self {
            bytes: 16384,
            depth: 24,
        }
    }
}
