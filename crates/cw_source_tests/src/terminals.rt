//! The terminals of texts, each written out by hand, with the values of numbers and characters.

use crate::calls::{Call, all_lines_tell};
use cw_grammar::terminals::{Terminal, is_same};

/// Texts, each with its first terminal, a line each.
const TERMINALS: &str = "extern x\tExtern
static x\tStatic
const x\tConst
void x\tVoid
unsigned x\tUnsigned
char x\tChar
int x\tInt
long x\tLong
if x\tIf
else x\tElse
while x\tWhile
do x\tDo
for x\tFor
break x\tBreak
continue x\tContinue
return x\tReturn
sizeof x\tSizeOf
<<= x\tLeftShiftAssign
>>= x\tRightShiftAssign
<< x\tLeftShift
>> x\tRightShift
<= x\tLessEqual
>= x\tGreaterEqual
== x\tEqual
!= x\tNotEqual
&& x\tAmpersandAmpersand
|| x\tBarBar
++ x\tPlusPlus
-- x\tMinusMinus
+= x\tAddAssign
-= x\tSubtractAssign
*= x\tMultiplyAssign
/= x\tDivideAssign
%= x\tRemainderAssign
&= x\tAndAssign
|= x\tOrAssign
^= x\tXorAssign
( x\tOpen
) x\tClose
[ x\tOpenBracket
] x\tCloseBracket
{ x\tOpenBrace
} x\tCloseBrace
; x\tSemicolon
, x\tComma
: x\tColon
= x\tAssign
+ x\tPlus
- x\tMinus
* x\tStar
/ x\tSlash
% x\tPercent
& x\tAmpersand
| x\tBar
^ x\tCaret
~ x\tTilde
! x\tExclamation
< x\tLess
> x\tGreater
x\tName
_int\tName
struct\tOtherKeyword
0x10u\tNumber(16)
18446744073709551615\tNumber(18446744073709551615)
'a'\tCharacter(97)
'\\n'\tCharacter(10)
\"a\"\tText
 /* none */ \tnone
0\tNumber(0)
00\tNumber(0)
07\tNumber(7)
0377u\tNumber(255)
10\tNumber(10)
10uL\tNumber(10)
10LLu\tNumber(10)
1ULL\tNumber(1)
1l\tNumber(1)
0x1F\tNumber(31)
0xabcdefl\tNumber(11259375)
18446744073709551615\tNumber(18446744073709551615)
01777777777777777777777\tNumber(18446744073709551615)
0xffffffffffffffffUll\tNumber(18446744073709551615)
000000000000000000000000000000001\tNumber(1)
'a'\tCharacter(97)
' '\tCharacter(32)
'\"'\tCharacter(34)
'\\''\tCharacter(39)
'\\\"'\tCharacter(34)
'\\?'\tCharacter(63)
'\\\\'\tCharacter(92)
'\\a'\tCharacter(7)
'\\b'\tCharacter(8)
'\\f'\tCharacter(12)
'\\n'\tCharacter(10)
'\\r'\tCharacter(13)
'\\t'\tCharacter(9)
'\\v'\tCharacter(11)
'\\0'\tCharacter(0)
'\\12'\tCharacter(10)
'\\377'\tCharacter(255)
'\\x7'\tCharacter(7)
'\\xfF'\tCharacter(255)
";

#[test]
fn texts_have_these_terminals(rt: HostRuntime) {
    assert!(rt;
        is_same(Terminal::Number(1), Terminal::Number(2))
            && !is_same(Terminal::Open, Terminal::Close)
    );
    all_lines_tell(&rt, rt.alloc(), Call::FirstTerminal, TERMINALS, 102);
}
