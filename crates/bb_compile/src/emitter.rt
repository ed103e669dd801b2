//! The emitter: the code emitted so far for a part, with its schema and part. Everything that walks the tree of a part
//! gets it.

use bb_compile_buffer::Buffer;
use bb_schema::Schema;
use bb_verify_effect::Part;

/// The buffer of a part with the schema and part that statements are checked against; these stay unchanged while the
/// buffer grows.
#[derive(Drop)]
pub struct Emitter<'a> {
    pub schema: &'a Schema,
    pub part: Part,
    pub buffer: Buffer,
}
