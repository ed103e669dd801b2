//! Words that begin statements in other languages, and what to write here. Messages on tokens look up the name that a
//! statement begins with.

// A row is `WORDS | SENTENCE`.
const WORDS: &str = r#"
print println printf printout echo log puts write display | write say E, ..;
while until loop repeat foreach each forall | a loop goes over units: for n in find C in W { .. }
break continue next | a loop goes over all of its units: an "if" in it passes over what is not wanted
stop exit halt quit | a run ends once nothing is chosen, or at its limit: no statement ends it
return yield result | a part ends by "rate", "decline" or "answer", and "do" at its end
var const val int mut local my auto bool string number float def dim | write let n = E;
fn function func fun sub proc procedure method lambda call goto | there are no functions
elif elsif elseif elsf | write else { if .. { .. } }
switch case select when match unless cond | write if .. { .. } else { .. }
assert | a unit is created by new n: CLASS; and tested by "if"
try catch throw raise except finally panic | nothing fails here: "if" and "with" test what may not be there
import include using package module use | a text has sources alone
create make add insert spawn | a unit is created by new n: CLASS;
update assign change modify put store | a slot is set by set u.s = E;
remove retract destroy drop kill free erase | a unit is deleted by delete u;
append push connect attach bind | a link is made by link u.s v;
detach disconnect unbind | a link is taken away by unlink u.s v;
pass skip nop noop | an empty block is { }
begin end endif endfor fi done od then | a block stands in { and }
wait sleep await async | a source waits for the next event: "when" names it
trigger fire emit post send signal notify raise | an event comes of a change: set, new, delete, link, enter
reject refuse deny abort ignore cancel | "require" and "retrigger" end by "decline", the others by answer false;
salience priority | the rating stands in the head, rate INT; or "require" gives it
class struct record type enum interface | classes stand in the schema
"#;

/// Returns the advice for a word that begins a statement in another language.
pub(crate) fn mend_of(word: &str) -> Option<&'static str> {
    for row in WORDS.lines() {
        if let Some((words, says)) = row.split_once(" | ") {
            if words.split(' ').any(|it| it == word) {
                return Some(says);
            }
        }
    }
    None
}
