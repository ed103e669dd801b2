//! The sources of an input that are text: all are read, then each is compiled. All sources of an input (given.rt) and
//! its bundle (compile.rt) begin with them.

ghost use Rattle.bb_basis.specs.Results.{Gives, map_err, try_map};
ghost use Rattle.bb_lang.specs.Sources.{sources_of as trees_of};
ghost use Rattle.bb_shell.specs.Sources.{compiled_source, compiled_text};

use bb_bundle::SourceCode;
use bb_compile::compile;
use bb_compile_scope::CompileFault;
use bb_lang::{LangFault, SourceText, parse};
use bb_refusal::InputFault;
use bb_schema::Schema;
use std::alloc::Global;

/// Compiles the sources of a text. The whole text is read before any source is compiled.
#[tactic(auto, unfolding(crate::specs::Sources::compiled_text))]
pub(crate) fn compiled_text(
    alloc: Global,
    schema: &Schema,
    text: &str,
) -> Result<Vec<SourceCode>, InputFault>
    ensures { Gives InputFault.Memory (λ v. v.items) result (compiled_text schema.now text.now) }
{
    let trees = read_trees(alloc, text)?;
    compile_all(alloc, schema, trees.as_slice())
}

fn read_trees(alloc: Global, text: &str) -> Result<Vec<SourceText>, InputFault>
    ensures { Gives InputFault.Memory (λ v. v.items) result (map_err InputFault.Lang (trees_of text.now)) }
{
    match parse(alloc, text) {
        Ok(trees) => Ok(trees),
        Err(LangFault::Memory) => Err(InputFault::Memory),
        Err(fault) => Err(InputFault::Lang(fault)),
    }
}

fn compile_all(
    alloc: Global,
    schema: &Schema,
    trees: &[SourceText],
) -> Result<Vec<SourceCode>, InputFault>
    ensures { Gives InputFault.Memory (λ v. v.items) result (try_map (compiled_source schema.now) trees.now) }
{
    let mut codes = Vec::new(alloc);
    for tree in trees {
        codes.push(compile_source(alloc, schema, tree)?)?;
    }
    Ok(codes)
}

// Compiles the source of a tree. A fault has the source's name.
fn compile_source(
    alloc: Global,
    schema: &Schema,
    tree: &SourceText,
) -> Result<SourceCode, InputFault>
    ensures { Gives InputFault.Memory (λ s. s) result (compiled_source schema.now tree.now) }
{
    match compile(alloc, schema, tree) {
        Ok(source) => Ok(source),
        Err(CompileFault::Memory) => Err(InputFault::Memory),
        Err(fault) => {
            let name = tree.header.name.clone()?;
            Err(InputFault::Compile { name, fault })
        }
    }
}
