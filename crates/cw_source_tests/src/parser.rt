//! What no clause says: the trees of a few files and statements, and that calls succeed.

use crate::calls::{Call, all_joined_tell, all_lines_tell};

/// Sources, each with its tree or its fault, a line each.
const TREES: &str =
    "int g(void);int a[]={1,};void f(int n){l:do;while(n);for(int i=0;;)return;}\t(prototype 4-5 0)(declaration 12-25(CType { base: Int, unsigned: false, stars: 0 } 16-17(Number(1) 21-22)))(function 30-31(label 39-53:39-40,41(do 41-53(empty 43-44)(Name 50-51)))(for 53-74(declaration 57-65(CType { base: Int, unsigned: false, stars: 0 } 61-62(Number(0) 63-64)))(return 67-74)))
void f(){if(a)if(b)x();else y();}\t(function 5-6(if 9-32(Name 12-13)(if 14-32(Name 17-18)(expression 19-23(Call(Name { from: 19, to: 20 }) 19-22))(expression 28-32(Call(Name { from: 28, to: 29 }) 28-31)))))
void f(){do x();while(a);}\t(function 5-6(do 9-25(expression 12-16(Call(Name { from: 12, to: 13 }) 12-15))(Name 22-23)))
void f(){for(int i=0;i<3;i++)f();}\t(function 5-6(for 9-33(declaration 13-21(CType { base: Int, unsigned: false, stars: 0 } 17-18(Number(0) 19-20)))(Binary(7) 21-24(Name 21-22)(Number(3) 23-24))(Suffix(0) 25-28(Name 25-26))(expression 29-33(Call(Name { from: 29, to: 30 }) 29-32))))
void f(){while(a){break;continue;}return b;return;}\t(function 5-6(while 9-34(Name 15-16)(block 17-34(break 18-24)(continue 24-33)))(return 34-43(Name 41-42))(return 43-50))
void f(){a-b-c;}\t(function 5-6(expression 9-15(Binary(14) 9-14(Binary(14) 9-12(Name 9-10)(Name 11-12))(Name 13-14))))
void f(){a=b=c;}\t(function 5-6(expression 9-15(Assign(0) 9-14(Name 9-10)(Assign(0) 11-14(Name 11-12)(Name 13-14)))))
void f(){-a*b;}\t(function 5-6(expression 9-14(Binary(15) 9-13(Prefix(1) 9-11(Name 10-11))(Name 12-13))))
void f(){a<b<c;}\t(function 5-6(expression 9-15(Binary(7) 9-14(Binary(7) 9-12(Name 9-10)(Name 11-12))(Name 13-14))))
void f(){(char)a[1];}\t(function 5-6(expression 9-20(Cast(CType { base: Char, unsigned: false, stars: 0 }) 9-19(Index 15-19(Name 15-16)(Number(1) 17-18)))))
void f(){sizeof(int);}\t(function 5-6(expression 9-21(SizeOfType(CType { base: Int, unsigned: false, stars: 0 }) 9-20)))
void f(){a:b:;}\t(function 5-6(label 9-14:9-10,11(label 11-14:11-12,13(empty 13-14))))
void f(){int x=1,*y;}\t(function 5-6(declaration 9-20(CType { base: Int, unsigned: false, stars: 0 } 13-14(Number(1) 15-16))(CType { base: Int, unsigned: false, stars: 1 } 18-19)))
void f(){{;{}}}\t(function 5-6(block 9-14(empty 10-11)(block 11-13)))
int f(int){}\tsyntax at 10
";

#[test]
fn sources_have_these_trees(rt: HostRuntime) {
    all_lines_tell(&rt, rt.alloc(), Call::Program, TREES, 15);
}

#[test]
fn statements_nest_at_most_64(rt: HostRuntime) {
    all_joined_tell(
        &rt,
        rt.alloc(),
        Call::HasProgram,
        &[
            // 64 statements in one another are allowed: 63 blocks, and the statement in the innermost.
            (
                &[
                    ("void f(){", 1, ""),
                    ("{", 63, ""),
                    (";", 1, ""),
                    ("}", 64, ""),
                ],
                "read",
            ),
            (
                &[
                    ("void f(){", 1, ""),
                    ("{", 64, ""),
                    (";", 1, ""),
                    ("}", 65, ""),
                ],
                "nesting",
            ),
            // A fault behind what nests too deep is told, and a source that only isn't ended ends at its length.
            (
                &[
                    ("void f(){", 1, ""),
                    ("{", 64, ""),
                    (";", 1, ""),
                    ("}", 65, ""),
                    (")", 1, ""),
                ],
                "syntax at 139",
            ),
            (
                &[
                    ("void f(){", 1, ""),
                    ("{", 64, ""),
                    (";", 1, ""),
                    ("}", 64, ""),
                ],
                "syntax at 138",
            ),
        ],
    );
}
