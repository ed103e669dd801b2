//! The inputs of the tests. They are public and therefore built without tests too.

/// A schema with one class.
pub const NOTE_SCHEMA: &str = r#"{"classes":[{"name":"note"}]}"#;

/// One unit of the class `note`.
pub const ONE_NOTE: &str = r#"{"units":[{"name":"a","class":"note"}]}"#;

/// A source that says "hello" of each note.
pub const HAIL: &str = "source hail note 100\n\
    when create note\n\
    do 42424301010001000568656c6c6f000000000000000302000029012e\n";

/// The texts and numbers of a run.
#[derive(Clone, Copy)]
pub struct Input<'a> {
    pub schema: &'a str,
    pub units: &'a str,
    pub sources: &'a str,
    pub bundle: &'a str,
    pub limit: u32,
    pub floor: i64,
}

/// One note and the source that says "hello" of it.
pub const FIRST: Input<'static> = Input {
    schema: NOTE_SCHEMA,
    units: ONE_NOTE,
    sources: "",
    bundle: HAIL,
    limit: 100,
    floor: 0,
};
