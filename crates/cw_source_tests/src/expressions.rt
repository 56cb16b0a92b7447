//! Expressions read from texts, against trees that were written out by hand or by another reader of the same grammar.

use crate::calls::{Call, all_joined_tell, all_lines_tell, joined_tell};
use std::alloc::Global;
use std::process::Abort;

/// Texts, each with its tree and how many tokens are left behind it, a line each.
const TREES: &str = "a-b-c\t(Binary(14) 0-5(Binary(14) 0-3(Name 0-1)(Name 2-3))(Name 4-5)) | 0
a=b=c\t(Assign(0) 0-5(Name 0-1)(Assign(0) 2-5(Name 2-3)(Name 4-5))) | 0
a+=b-=c\t(Assign(1) 0-7(Name 0-1)(Assign(2) 3-7(Name 3-4)(Name 6-7))) | 0
-a*b\t(Binary(15) 0-4(Prefix(1) 0-2(Name 1-2))(Name 3-4)) | 0
(char)a[1]\t(Cast(CType { base: Char, unsigned: false, stars: 0 }) 0-10(Index 6-10(Name 6-7)(Number(1) 8-9))) | 0
sizeof(int)\t(SizeOfType(CType { base: Int, unsigned: false, stars: 0 }) 0-11) | 0
sizeof(a)\t(SizeOf 0-9(Name 7-8)) | 0
sizeof a[0]+1\t(Binary(13) 0-13(SizeOf 0-11(Index 7-11(Name 7-8)(Number(0) 9-10)))(Number(1) 12-13)) | 0
a<b<c\t(Binary(7) 0-5(Binary(7) 0-3(Name 0-1)(Name 2-3))(Name 4-5)) | 0
(a+b)*c\t(Binary(15) 0-7(Binary(13) 1-4(Name 1-2)(Name 3-4))(Name 6-7)) | 0
((a))\t(Name 2-3) | 0
a|b^c&d==e<f<<g+h*i\t(Binary(2) 0-19(Name 0-1)(Binary(3) 2-19(Name 2-3)(Binary(4) 4-19(Name 4-5)(Binary(5) 6-19(Name 6-7)(Binary(7) 9-19(Name 9-10)(Binary(11) 11-19(Name 11-12)(Binary(13) 14-19(Name 14-15)(Binary(15) 16-19(Name 16-17)(Name 18-19))))))))) | 0
a||b&&c|d\t(Binary(0) 0-9(Name 0-1)(Binary(1) 3-9(Name 3-4)(Binary(2) 6-9(Name 6-7)(Name 8-9)))) | 0
f()\t(Call(Name { from: 0, to: 1 }) 0-3) | 0
f(a,b++,(c))\t(Call(Name { from: 0, to: 1 }) 0-12(Name 2-3)(Suffix(0) 4-7(Name 4-5))(Name 9-10)) | 0
f(a)(b)\t(Call(Name { from: 0, to: 1 }) 0-4(Name 2-3)) | 3
a[i][j]\t(Index 0-7(Index 0-4(Name 0-1)(Name 2-3))(Name 5-6)) | 0
x++ --\t(Suffix(1) 0-6(Suffix(0) 0-3(Name 0-1))) | 0
++--x\t(Prefix(6) 0-5(Prefix(7) 2-5(Name 4-5))) | 0
-(int)a=b\t(Assign(0) 0-9(Prefix(1) 0-7(Cast(CType { base: Int, unsigned: false, stars: 0 }) 1-7(Name 6-7)))(Name 8-9)) | 0
(int)a=b\t(Cast(CType { base: Int, unsigned: false, stars: 0 }) 0-6(Name 5-6)) | 2
(const unsigned long int**)&p\t(Cast(CType { base: Long, unsigned: true, stars: 2 }) 0-29(Prefix(5) 27-29(Name 28-29))) | 0
*&!~+-a\t(Prefix(4) 0-7(Prefix(5) 1-7(Prefix(2) 2-7(Prefix(3) 3-7(Prefix(0) 4-7(Prefix(1) 5-7(Name 6-7))))))) | 0
sizeof(unsigned char*)\t(SizeOfType(CType { base: Char, unsigned: true, stars: 1 }) 0-22) | 0
sizeof sizeof a\t(SizeOf 0-15(SizeOf 7-15(Name 14-15))) | 0
\"ab\" \"cd\" \"e\"\t(Text 0-13) | 0
'a'+'\\n'\t(Binary(13) 0-8(Char(97) 0-3)(Char(10) 4-8)) | 0
0x1F+010-9u\t(Binary(14) 0-11(Binary(13) 0-8(Number(31) 0-4)(Number(8) 5-8))(Number(9) 9-11)) | 0
a<<=b>>=c\t(Assign(9) 0-9(Name 0-1)(Assign(10) 4-9(Name 4-5)(Name 8-9))) | 0
a%b/c*d\t(Binary(15) 0-7(Binary(16) 0-5(Binary(17) 0-3(Name 0-1)(Name 2-3))(Name 4-5))(Name 6-7)) | 0
a&&b&&c\t(Binary(1) 0-7(Binary(1) 0-4(Name 0-1)(Name 3-4))(Name 6-7)) | 0
f(g(a),h(b,c))\t(Call(Name { from: 0, to: 1 }) 0-14(Call(Name { from: 2, to: 3 }) 2-6(Name 4-5))(Call(Name { from: 7, to: 8 }) 7-13(Name 9-10)(Name 11-12))) | 0
(unsigned)x\t(Cast(CType { base: Int, unsigned: true, stars: 0 }) 0-11(Name 10-11)) | 0
sizeof(long int)*2\t(Binary(15) 0-18(SizeOfType(CType { base: Long, unsigned: false, stars: 0 }) 0-16)(Number(2) 17-18)) | 0
a=b||c=d\t(Assign(0) 0-6(Name 0-1)(Binary(0) 2-6(Name 2-3)(Name 5-6))) | 2
p=q,r\t(Assign(0) 0-3(Name 0-1)(Name 2-3)) | 2
x;y\t(Name 0-1) | 2
\tsyntax
a+\tsyntax
)\tsyntax
(a\tsyntax
f(a,)\tsyntax
a[\tsyntax
sizeof(int\tsyntax
(int)\tsyntax
case\tsyntax
sizeof(int)a\t(SizeOfType(CType { base: Int, unsigned: false, stars: 0 }) 0-11) | 1
";

#[test]
fn texts_have_these_trees(rt: HostRuntime) {
    all_lines_tell(&rt, rt.alloc(), Call::Expression, TREES, 47);
}

/// Asserts that `a` is read with so many of each front and back round it, and refused with 64 and 300.
fn all_nest<'x>(rt: &impl Abort, alloc: Global, rows: &[(&'x str, &'x str, usize)]) {
    for (front, back, most) in rows {
        for (count, want) in [(*most, "read"), (64, "nesting"), (300, "nesting")] {
            joined_tell(
                rt,
                alloc,
                Call::HasExpression,
                &[(*front, count, ""), ("a", 1, ""), (*back, count, "")],
                want,
            );
        }
    }
}

#[test]
fn nesting_is_at_most_64(rt: HostRuntime) {
    let alloc = rt.alloc();
    all_nest(
        &rt,
        alloc,
        &[
            ("(", ")", 63),
            ("a-", "", 63),
            ("- ", "", 63),
            ("a=", "", 63),
            ("", "[0]", 63),
            ("", "++", 63),
            ("f(", ")", 63),
            ("(int)", "", 63),
            ("sizeof ", "", 63),
            ("(a+", ")", 31),
        ],
    );
    // a long chain
    all_joined_tell(
        &rt,
        alloc,
        Call::HasExpression,
        &[(&[("a-", 100000, "")], "nesting")],
    );
}
