//! Common mistakes outside values, as rows of tables; slips.rt describes them.

/// Mistakes outside blocks.
pub(crate) const OUTER_SLIPS: &str = r#"
* | @ ; ; | source | a comment begins with "//", and goes to the end of its line
* | } @ ; | source | no ";" stands behind "}"
* | @ ; | source | a comment begins with "//", and goes to the end of its line
* | @ ( | source | a text has sources alone: source NAME on CLASS { .. }
* | @ let | source | what sources share is a unit: a text has sources alone
* | @ var | source | what sources share is a unit: a text has sources alone
* | @ const | source | what sources share is a unit: a text has sources alone
* | @ def | source | there are no functions: a text has sources alone
* | @ fn | source | there are no functions: a text has sources alone
* | @ function | source | there are no functions: a text has sources alone
* | @ class | source | classes stand in the schema: a text has sources alone
* | @ rule | source | write source NAME on CLASS { .. }
* | @ defrule | source | write source NAME on CLASS { .. }
source | source @ WORD - WORD | the name of a source | a name has "_" and no "-": $at_$last
source | source @ TEXT | the name of a source | the name of a source stands without quotes
source | source @ on | the name of a source | the name of the source is due before "on"
source | @ { | on | "on CLASS" is due before "{"
source | @ : | on | write "on" in place of ":"
source | NAME @ - NAME | on | a name has "_" and no "-": $before_$behind
source | @ , | { | a source is on one class: a class above both serves for two
source | NAME @ when | { | "{" is due before "when"
source | INT @ + | ; | the rating of a source is a written number: "require" may give another
source | INT @ - | ; | the rating of a source is a written number: "require" may give another
source | INT @ * | ; | the rating of a source is a written number: "require" may give another
source | rate @ NAME | a written number | the rating of a source is a written number: "require" may give another
source | rate @ ( | a written number | the rating of a source is a written number: "require" may give another
source | rate @ = | a written number | no "=" stands here: write rate INT;
source | rate @ : | a written number | no ":" stands here: write rate INT;
source | ; @ on | when | an event begins with "when"
source | { @ on | when | an event begins with "when"
source | @ salience | rate | write rate INT; in place of "salience"
source | @ priority | rate | write rate INT; in place of "priority"
source | @ trigger | when | an event begins with "when"
source | @ triggers | when | an event begins with "when"
source | @ event | when | an event begins with "when"
source | @ precondition | require | write require { .. } in place of "precondition"
source | @ condition | require | write require { .. } in place of "condition"
source | @ if | require | a condition stands in require { .. }, which ends by rate E; or decline;
source | @ action | do | write do { .. } in place of "action"
source | @ then | do | write do { .. } in place of "then"
source | @ } | do | "do { .. }" or "native;" is due before "}"
* | @ % NAME | source | "%$behind" is no header line, or stands at a wrong place
when | @ or | ; | each event has a "when" of its own: write "; when"
when | @ and | ; | each event has a "when" of its own: write "; when"
when | @ , | ; | each event has a "when" of its own: write "; when"
when | @ if | ; | an event has no condition: "require" tests it
when | @ where | ; | an event has no condition: "require" tests it
when | @ < | ; | an event has no condition: "require" tests it
when | @ = | ; | an event has no condition: "require" tests it
when | @ > | ; | an event has no condition: "require" tests it
when | delete NAME @ . | ; | "delete" names a class alone
when | create NAME @ . | ; | "create" names a class alone: a slot's event is "update"
update | NAME @ ; | . | "." and a slot are due: when update $before.SLOT;
link | NAME @ ; | . | "." and a link slot are due: when link $before.SLOT;
unlink | NAME @ ; | . | "." and a link slot are due: when unlink $before.SLOT;
enter | when enter NAME @ ; | a space | a space is due: when enter $before SPACE;
leave | when leave NAME @ ; | a space | a space is due: when leave $before SPACE;
enter | when enter NAME @ in | a space | no "in" stands here: write when enter $before $behind;
leave | when leave NAME @ in | a space | no "in" stands here: write when leave $before $behind;
when | from @ NAME | ; | no "from" stands here: write when leave $first $at;
when | to @ NAME | ; | no "to" stands here: write when enter $first $at;
when | quiescence @ NAME | ; | "quiescence" is of no class
when | when @ set | an event | the event of a slot is "update"
when | when @ new | an event | the event of a new unit is "create"
when | when @ NAME | an event | "$at" is no event: create, delete, update, link, unlink, enter, leave and quiescence are
obviate | obviate @ { | on | "on CLASS when EVENT;" is due before "{"
retrigger | retrigger @ { | on | "on CLASS when EVENT;" is due before "{"
obviate | obviate @ when | on | "on CLASS" is due before "when"
retrigger | retrigger @ when | on | "on CLASS" is due before "when"
obviate | @ { | when | "when EVENT;" is due before "{"
retrigger | @ { | when | "when EVENT;" is due before "{"
native | @ NAME | ; | write native; the native has the name of the source
native | @ { | ; | a native has no block: its code is the host's
"#;

/// Mistakes in statements.
pub(crate) const STATEMENT_SLIPS: &str = r#"
else | else @ if | { | "{" is due: write else { if .. { .. } }
else | else @ ANY | { | "{" is due behind "else"
* | @ then | { | there is no "then": write { .. }
* | @ : | { | a block is due: write { .. }
* | @ ; ; | a statement | a comment begins with "//", and goes to the end of its line
* | @ WORD - WORD | a new name | a name has "_" and no "-": $at_$last
* | } @ ; | * | no ";" stands behind "}"
* | ; @ ; | * | one ";" is enough
* | { @ ; | * | no ";" stands alone: an empty block is { }
* | @ else | a statement | an "else" stands right behind the block of its "if" or "with"
* | @ { | a statement | a block stands behind "if", "else", "with" and "for" alone
* | @ / * | * | a comment begins with "//", and goes to the end of its line
* | @ - - | a statement | a comment begins with "//", and goes to the end of its line
* | @ + + | a statement | there is no "++": write $last = $last + 1
* | @ create | a statement | a unit is created by new n: CLASS;
* | @ update | a statement | a slot is set by set u.s = E;
* | @ find | a statement | "find" stands in a loop: for n in find C in W { .. }
* | @ native | a statement | "native;" stands in place of "do", and in no block
* | @ it . WORD | a statement | write set it.$last = E;
* | @ ev . WORD | a statement | write set ev.$last = E;
* | @ + + | = | there is no "++": write $before = $before + 1
* | @ - - | = | there is no "--": write $before = $before - 1
set | . WORD @ + = | = | there is no "+=": write set $third.$before = $third.$before + E;
set | . WORD @ - = | = | there is no "-=": write set $third.$before = $third.$before - E;
* | @ + = | = | there is no "+=": write $before = $before + E
* | @ - = | = | there is no "-=": write $before = $before - E
* | @ * = | = | there is no "*=": write $before = $before * E
* | @ / = | = | there is no "/=": write $before = $before / 2
* | @ : = | = | write "=" in place of ":="
* | NAME @ - NAME | = | a name has "_" and no "-": $before_$behind
* | NAME @ - NAME | : | a name has "_" and no "-": $before_$behind
let | let mut @ NAME | = | each name may be given another value: write let $at = E;
* | NAME = WORD @ as | * | "as" stands in "with" alone: with $third = $before as $behind { .. }
* | if WORD @ as | * | "as" stands in "with" alone: with n = $before as $behind { .. }
* | if WORD @ in | * | no test tells whether a unit is in a space: for n in find CLASS in $behind { if n = $before { .. } }
let | NAME @ : | = | a name has the kind of its value: write let $before = E;
let | NAME @ ; | = | a name has a value from the start: write let $before = 0;
let | NAME @ , | = | each name has a "let" of its own
let | let NAME @ NAME | = | one name and "=" are due: write let $at = E;
with | with @ it | a new name | a new name is due: with n = it as CLASS { .. }
with | with @ ev | a new name | a new name is due: with n = ev as CLASS { .. }
with | with NAME @ as | = | a new name is due: with n = $before as CLASS { .. }
with | with NAME @ . WORD | = | a new name is due: with n = $before.$behind { .. }
with | with NAME @ { | = | write with n = $before as CLASS { .. }
with | = it @ { | as | "as" is due: with n = it as CLASS { .. }
with | = NAME @ { | as | "as" or "." is due: with n = $before as CLASS { .. }, or with n = $before.SLOT { .. }
for | for NAME @ = | in | a loop goes over units: for $before in find C in W { .. }
for | for NAME @ of | in | write "in" in place of "of"
for | for each @ NAME | in | a loop has one name: for $at in find C in W { .. }
for | for @ ( | a new name | no bracket stands behind "for": for n in find C in W { .. }
for | for @ let | a new name | no "let" stands behind "for": for n in find C in W { .. }
for | NAME @ , | in | a loop has one name
new | new NAME @ NAME ; | : | ":" stands between the name and the class: new $at: $before; or new $before: $at;
new | new NAME @ : = | : | write new $before: CLASS;
new | new NAME @ ANY | : | ":" and a class are due: new $before: CLASS;
new | : NAME @ { | ; | a new unit has the defaults of its class: "set" gives it others
new | : NAME @ ( | ; | a new unit has the defaults of its class: "set" gives it others
set | set NAME @ = | . | write $before = E; for a name, and set u.$before = E; for a slot
set | . WORD @ , | ; | one "set" sets one slot
set | @ , | ; | one "set" sets one slot
set | @ ANY | = | "=" is due before "$at"
link | link @ ( | the name of a unit | no brackets stand here: link u.s v;
link | . WORD WORD @ . WORD | ; | "link" takes a unit by its name: with n = $before.$behind { link .. n; }
unlink | . WORD WORD @ . WORD | ; | "unlink" takes a unit by its name: with n = $before.$behind { unlink .. n; }
delete | delete WORD @ . WORD | ; | "delete" takes a unit by its name: with n = $before.$behind { delete n; }
enter | enter WORD @ . WORD | a space | "enter" takes a unit by its name: with n = $before.$behind { enter n SPACE; }
leave | leave WORD @ . WORD | a space | "leave" takes a unit by its name: with n = $before.$behind { leave n SPACE; }
link | link WORD @ NAME NAME | . | write link $before.$at $behind;
link | link NAME @ NAME | . | write link $before.SLOT $at;
link | @ = | the name of a unit | no "=" stands here: write link u.s v;
link | @ , | the name of a unit | no "," stands here: write link u.s v;
link | to @ NAME | ; | no "to" stands here: write link u.s $at;
unlink | @ = | the name of a unit | no "=" stands here: write unlink u.s v;
unlink | @ , | the name of a unit | no "," stands here: write unlink u.s v;
unlink | from @ NAME | ; | no "from" stands here: write unlink u.s $at;
enter | enter WORD @ ; | a space | "enter" takes a unit and a space: enter u SPACE;
leave | leave WORD @ ; | a space | "leave" takes a unit and a space: leave u SPACE;
enter | NAME @ in | a space | no "in" stands here: write enter $before $behind;
leave | NAME @ in | a space | no "in" stands here: write leave $before $behind;
enter | to @ NAME | ; | no "to" stands here: write enter $first $at;
enter | into @ NAME | ; | no "into" stands here: write enter $first $at;
leave | from @ NAME | ; | no "from" stands here: write leave $first $at;
enter | NAME @ , | a space | no "," stands here: write enter $before $behind;
leave | NAME @ , | a space | no "," stands here: write leave $before $behind;
say | say ( TEXT @ , | ) | the values of "say" stand without brackets
* | NAME @ . WORD = | = | write set $before.$behind = E;
* | NAME @ . WORD < | = | a test is no statement: if $before.$behind < E { .. }
* | NAME @ . WORD <= | = | a test is no statement: if $before.$behind <= E { .. }
* | NAME @ . WORD ( | = | no statement calls anything: a link is made by link $before.$behind u;
* | NAME @ . WORD | = | a slot is set by set $before.$behind = E;
* | NAME @ : NAME | = | write new $before: $behind;
* | NAME @ [ | = | there are no lists
"#;
