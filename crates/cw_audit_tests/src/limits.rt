//! Programs at the limits of an audit, with their policies, and texts of their audits.

/// A function that is called twice, and a label behind the second call; and another label, that is nearer.
pub(crate) const NEARER_SOURCE: &str = "void f(int x){;;;;}
int main(void){f(1);if(c){f(2);a:;}else{;b:;}return 0;}
";

pub(crate) const NEARER_POLICY: &str = "format = 1
[[at]]
label = \"a\"
never = [\"amb\"]
[[at]]
label = \"b\"
never = [\"amb\"]
";

/// The violation to which a call leads whose callee's end is known isn't the nearest.
pub(crate) const NEARER: &str = "capweave audit 1
states 4
violates 10
on
on
on
on
on
on
on
on
right
on
in 0 0 2
at 2 0 0
at 3 0 1
at 4 0 2
at 5 0 3
at 6 0 4
at 7 0 5
in 1 0 0
at 10 0 0
at 13 0 1
at 14 0 8
at 17 0 9
at 22 0 9
end
";

/// Functions each of which calls the next twice, and `main`, which calls some of them: a label behind them comes after 65,536 moves.
pub(crate) const DOUBLING: &str = "void f0(int x);
void f1(int x);
void f2(int x);
void f3(int x);
void f4(int x);
void f5(int x);
void f6(int x);
void f7(int x);
void f8(int x);
void f9(int x);
void f10(int x);
void f11(int x);
void f12(int x);
void f13(int x);
void f0(int x){f1(1);f1(1);}
void f1(int x){f2(1);f2(1);}
void f2(int x){f3(1);f3(1);}
void f3(int x){f4(1);f4(1);}
void f4(int x){f5(1);f5(1);}
void f5(int x){f6(1);f6(1);}
void f6(int x){f7(1);f7(1);}
void f7(int x){f8(1);f8(1);}
void f8(int x){f9(1);f9(1);}
void f9(int x){f10(1);f10(1);}
void f10(int x){f11(1);f11(1);}
void f11(int x){f12(1);f12(1);}
void f12(int x){f13(1);f13(1);}
void f13(int x){;}
int main(void){f0(1);f3(1);f6(1);f9(1);f11(1);;;";

/// That label, and the end.
pub(crate) const DOUBLING_END: &str = "a:;return 0;}\n";

/// As many functions, and three that are entered only after 65,537 moves.
pub(crate) const FAR_SOURCE: &str = "void k(int x){;;;;}
void g(int x){if(c){;}else{;;;;}d:;}
void h(int x){k(1);if(c){k(2);}else{;;}e:;}
void f0(int x);
void f1(int x);
void f2(int x);
void f3(int x);
void f4(int x);
void f5(int x);
void f6(int x);
void f7(int x);
void f8(int x);
void f9(int x);
void f10(int x);
void f11(int x);
void f12(int x);
void f13(int x);
void f14(int x);
void f0(int x){f1(1);f1(1);}
void f1(int x){f2(1);f2(1);}
void f2(int x){f3(1);f3(1);}
void f3(int x){f4(1);f4(1);}
void f4(int x){f5(1);f5(1);}
void f5(int x){f6(1);f6(1);}
void f6(int x){f7(1);f7(1);}
void f7(int x){f8(1);f8(1);}
void f8(int x){f9(1);f9(1);}
void f9(int x){f10(1);f10(1);}
void f10(int x){f11(1);f11(1);}
void f11(int x){f12(1);f12(1);}
void f12(int x){f13(1);f13(1);}
void f13(int x){f14(1);f14(1);}
void f14(int x){;}
int main(void){f0(1);g(1);h(2);b:;return 0;a:;}
";

/// A reach that was cut, with numbers behind it that weren't.
pub(crate) const FAR: &str = "capweave audit 1
states 4
meets
in 0 2 65537
at 2 2 0
at 3 2 1
at 4 2 2
at 5 2 3
at 6 2 4
at 7 2 5
in 1 0 65537
at 10 0 0
at 11 0 1
at 12 0 2
at 13 0 2
at 14 0 3
at 15 0 4
at 16 0 5
at 19 0 3
at 20 2 4
at 21 2 5
in 2 2 65537
at 24 2 0
at 27 2 1
at 28 2 8
at 31 2 9
at 32 2 9
at 33 2 10
at 36 2 11
at 37 2 12
at 38 2 13
in 3 0 2
at 41 0 0
at 44 0 1
at 47 0 57342
at 48 0 65537
in 4 0 4
at 51 0 0
at 54 0 1
at 57 0 28670
at 58 0 57339
in 5 0 6
at 61 0 0
at 64 0 1
at 67 0 14334
at 68 0 28667
in 6 0 8
at 71 0 0
at 74 0 1
at 77 0 7166
at 78 0 14331
in 7 0 10
at 81 0 0
at 84 0 1
at 87 0 3582
at 88 0 7163
in 8 0 12
at 91 0 0
at 94 0 1
at 97 0 1790
at 98 0 3579
in 9 0 14
at 101 0 0
at 104 0 1
at 107 0 894
at 108 0 1787
in 10 0 16
at 111 0 0
at 114 0 1
at 117 0 446
at 118 0 891
in 11 0 18
at 121 0 0
at 124 0 1
at 127 0 222
at 128 0 443
in 12 0 20
at 131 0 0
at 134 0 1
at 137 0 110
at 138 0 219
in 13 0 22
at 141 0 0
at 144 0 1
at 147 0 54
at 148 0 107
in 14 0 24
at 151 0 0
at 154 0 1
at 157 0 26
at 158 0 51
in 15 0 26
at 161 0 0
at 164 0 1
at 167 0 12
at 168 0 23
in 16 0 28
at 171 0 0
at 174 0 1
at 177 0 5
at 178 0 9
in 17 0 30
at 181 0 0
at 182 0 1
at 183 0 2
in 18 0 0
at 186 0 0
at 189 0 1
at 192 0 65537
at 195 2 65537
at 198 2 65537
at 199 2 65537
at 200 2 65537
at 205 2 65537
end
";
