//! Common mistakes in values and patterns, as rows of tables; slips.rt describes them.

/// Mistakes in patterns.
pub(crate) const PATTERN_SLIPS: &str = r#"
* | within INT @ . . | * | an interval stands in square brackets: within [a, b]
* | @ > = | a relation | there is no ">=": write not($before less [E, E])
* | @ > | a relation | there is no ">": write $before more [E, E]
* | @ < | a relation | a dimension is tested by a word: write $before less [E, E]
* | @ <= | a relation | a dimension is tested by a word: write not($before more [E, E])
* | @ = | a relation | a dimension is tested by a word: write $before within [E, E], or $before is SET:LABEL
* | @ ! = | a relation | there is no "!=": write not($before within [E, E])
* | @ in | a relation | write $before within [E, E]
* | @ . | a relation | a pattern names a dimension of the space, and no unit: write $behind within [E, E]
* | @ it | a pattern | a pattern names a dimension of the space, and no unit
where | @ within | an operator | patterns are joined by and(P, P), in front of both
where | @ less | an operator | patterns are joined by and(P, P), in front of both
where | @ more | an operator | patterns are joined by and(P, P), in front of both
where | @ covers | an operator | patterns are joined by and(P, P), in front of both
where | @ overlaps | an operator | patterns are joined by and(P, P), in front of both
where | @ is | an operator | patterns are joined by and(P, P), in front of both
* | and @ NAME | ( | patterns are joined by and(P, P), in front of both
* | or @ NAME | ( | patterns are joined by or(P, P), in front of both
* | @ within | an operator | "within" tests a dimension in a pattern alone: find C in W where d within E
* | @ covers | an operator | "covers" tests a dimension in a pattern alone: find C in W where d covers E
* | @ overlaps | an operator | "overlaps" tests a dimension in a pattern alone: find C in W where d overlaps E
* | @ less | an operator | "less" tests a dimension in a pattern alone: write a < b
* | @ more | an operator | "more" tests a dimension in a pattern alone: write b < a
* | @ is TEXT | an operator | a label is compared by "=": a = SET:LABEL
* | @ is | an operator | "is" tests a dimension in a pattern alone: write a = b, or with n = a as CLASS { .. }
find | @ where | in | "in SPACE" is due before "where"
find | @ all | a space | "all" is a reserved word: a unit has to be in a space to be found, and the space is due here
find | @ all | a class | "all" is a reserved word: find CLASS in SPACE finds all of a class
find | every @ NAME | in | a class is due behind "find": write find $at in SPACE
find | each @ NAME | in | a class is due behind "find": write find $at in SPACE
find | the @ NAME | in | a class is due behind "find": write find $at in SPACE
find | a @ NAME | in | a class is due behind "find": write find $at in SPACE
find | first @ NAME | in | a class is due behind "find": write find $at in SPACE
find | find NAME @ ANY | in | "in SPACE" is due: write find $before in SPACE
find | in NAME @ with | * | a pattern stands behind "where": find C in $before where P
find | in NAME @ if | * | a pattern stands behind "where": find C in $before where P
find | in NAME @ , | where | a pattern stands behind "where": find C in $before where P
"#;

/// Mistakes in values.
pub(crate) const VALUE_SLIPS: &str = r#"
let | let NAME = @ = | a value | one "=" gives a name its value
* | = @ = | * | write "=" to compare
* | + @ = | * | there is no "+="
* | - @ = | * | there is no "-="
* | * @ = | * | there is no "*="
* | / @ = | * | there is no "/="
* | % @ = | * | there is no "%="
* | @ + = | * | there is no "+=": write out the sum
* | @ - = | * | there is no "-=": write out the difference
* | @ * = | * | there is no "*=": write out the product
* | @ / = | * | there is no "/=": write out the quotient
* | @ % = | * | there is no "%=": write out the remainder
* | = @ < | * | there is no "=<": write "<="
* | = @ > | * | there is no "=>"
* | - @ > | * | there is no "->"
* | < @ > | * | there is no "<>": write not(a = b)
* | < @ < | * | there is no "<<"
* | @ > = | * | there is no ">=": turn it round, "b <= a" for "a >= b"
* | @ > > | * | there is no ">>"
* | @ > | * | there is no ">": turn it round, "b < a" for "a > b"
* | @ ! = | * | there is no "!=": write not(a = b)
* | @ ! | * | there is no "!": write not(a)
* | @ & & | * | there is no "&&": write "and"
* | @ & | * | there is no "&": write "and"
* | * @ * | * | there is no "**": write a * a
* | / @ * | * | a comment begins with "//", and goes to the end of its line
* | INT @ . INT | * | numbers are whole: $before.$behind is none
* | INT @ . . | * | there are no ranges of numbers: a loop goes over units
* | INT @ . | * | numbers are whole: no "." stands behind one
* | INT @ NAME | an operator | no letter stands behind a number: $before$at is none
* | NAME . WORD @ . size | an operator | write size($third.$before)
* | NAME . WORD @ . low | an operator | write low($third.$before)
* | NAME . WORD @ . high | an operator | write high($third.$before)
* | NAME . WORD @ . WORD | an operator | name the partner first: with n = $third.$before { .. n.$behind .. }
* | . WORD @ . | an operator | a value has one ".": name the partner first, by "with"
* | it @ [ | * | there are no lists: "for" goes over units one by one
* | @ [ | an operator | there are no lists: "for" goes over units one by one
* | : @ : | * | a label is written SET:LABEL, with one ":"
* | : @ TEXT | a label | a label stands without quotes
* | @ < | an operator | a comparison has two sides: write a < b and b < c
* | @ <= | an operator | a comparison has two sides: write a <= b and b <= c
* | @ = | an operator | a comparison has two sides: write a = b and b = c
* | - @ INT | * | "-" stands between two numbers, or begins one
* | / @ ANY | a written number | "/" divides by a written number alone
* | % @ ANY | a written number | "%" divides by a written number alone
* | - @ - | a written number | "-" is part of a number, and stands there once
* | - @ ( | a written number | "-" is part of a number: write 0 - (..)
* | - @ ANY | a written number | "-" is part of a number: write 0 - $at
* | @ + | a value | "+" stands between two numbers
* | not @ ANY | ( | "(" is due: write not(..)
* | size @ ANY | ( | "(" is due: write size(find C in W), or size(u.s)
* | low @ ANY | ( | "(" is due: write low(..)
* | high @ ANY | ( | "(" is due: write high(..)
* | min @ ANY | ( | "(" is due: write min(a, b)
* | max @ ANY | ( | "(" is due: write max(a, b)
* | = ( INT @ , | ) | an interval stands in square brackets: [$before, $behind]
* | , ( INT @ , | ) | an interval stands in square brackets: [$before, $behind]
min | @ ) | , | "min" takes two values: min(a, b)
max | @ ) | , | "max" takes two values: max(a, b)
min | @ , | ) | "min" takes two values: min(a, min(b, c))
max | @ , | ) | "max" takes two values: max(a, max(b, c))
* | abs @ ( | * | there is no "abs": write max(x, 0 - x)
* | len @ ( | * | there is no "len": write size(find C in W), or size(u.s)
* | count @ ( | * | there is no "count": write size(find C in W), or size(u.s)
* | length @ ( | * | there is no "length": write size(find C in W), or size(u.s)
* | sum @ ( | * | there is no "sum": add up in a "for"
* | exists @ ( | * | there is no "exists": write 0 < size(find C in W)
* | any @ ( | * | there is no "any": write 0 < size(find C in W)
* | NAME @ ( | an operator | there is no "$before(..)": the functions are min, max, low, high, size and not
* | @ new | a value | "new" is a statement: write new n: CLASS;
* | @ find | a value | a sequence is no value: "for" goes over it, and size(..) counts it
* | @ if | a value | "if" is a statement, and no value
* | @ all | a sequence | "all" is no sequence: write find C in W
* | in NAME @ ANY | . | "$before" alone is no sequence: write find C in W, or u.s
* | ( NAME @ ANY | . | "$before" alone is no sequence: write find C in W, or u.s
* | in it @ ANY | . | "it" alone is no sequence: write find C in W, or it.s
* | @ INT | a sequence | a loop goes over units, and counts no numbers
* | @ [ | a sequence | a loop goes over units: write find C in W, or u.s
* | , @ , | a value | one "," is enough
* | , @ ; | a value | a value is due behind ","
* | , @ ) | a value | a value is due behind ","
* | TEXT @ TEXT | an operator | "," is due between two texts
"#;
