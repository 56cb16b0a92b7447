//! Expressions, each in a function of its own, with the values and the stops that were reckoned by hand. A C compiler says the same of
//! those that have a value in both, but for characters from 128 on and for casts.

use crate::ground::all_told;
use std::alloc::Global;
use std::process::Abort;

/// What stands before an expression, which is alone on the second line.
const BEFORE: &str = "int main(int p){int s=4,x,y;int a[2]={10,20};int u[2];put(";

/// Asserts what the run of a source shows in which an expression is an argument, where 41 is handed in for `h`.
fn shows(rt: &impl Abort, alloc: Global, expression: &str, wanted: &str) {
    let source = format!(in alloc; "{BEFORE}\n{expression},0);}}").expect(rt, "memory");
    all_told(
        rt,
        alloc,
        "format = 1\n",
        &[(&source, "name h 41\ncall 0\n", wanted)],
    );
}

/// Asserts the value of each expression.
fn all_give(rt: &impl Abort, alloc: Global, rows: &[(&str, i64)]) {
    for (expression, value) in rows {
        let wanted = format!(in alloc; "call put({value},0) = 0\ntries 0\nended\n");
        shows(rt, alloc, expression, &wanted.expect(rt, "memory"));
    }
}

/// Asserts how each expression stops, and at which column.
fn all_stop(rt: &impl Abort, alloc: Global, rows: &[(&str, &str, u32)]) {
    for (expression, word, column) in rows {
        let wanted = format!(in alloc; "tries 0\nstop {word} 2:{column}\n");
        shows(rt, alloc, expression, &wanted.expect(rt, "memory"));
    }
}

#[test]
fn quotients(rt: HostRuntime) {
    all_give(
        &rt,
        rt.alloc(),
        &[
            ("7/2", 3),
            ("-7/2", -3),
            ("7/-2", -3),
            ("-7/-2", 3),
            ("7%2", 1),
            ("-7%2", -1),
            ("7%-2", 1),
            ("-7%-2", -1),
            ("-1/2", 0),
            ("-1%2", -1),
            ("5%-3", 2),
            ("-5%3", -2),
            ("-5%-3", -2),
            ("0/-5", 0),
            ("0%5", 0),
            ("(-9223372036854775807-1)%-1", 0),
            ("(-9223372036854775807-1)%3", -2),
            ("(-9223372036854775807-1)%2", 0),
            ("9223372036854775807%-1", 0),
            ("(-9223372036854775807-1)/1", i64::MIN),
            ("(-9223372036854775807-1)/9223372036854775807", -1),
            ("(-9223372036854775807-1)%9223372036854775807", -1),
            ("100/10/5", 2),
            ("100/7%4", 2),
            ("2*3%4", 2),
            ("-2%3*2", -4),
        ],
    );
}

#[test]
fn shifts(rt: HostRuntime) {
    all_give(
        &rt,
        rt.alloc(),
        &[
            ("1<<0", 1),
            ("1<<62", 4611686018427387904),
            ("-1<<63", i64::MIN),
            ("0<<63", 0),
            ("-2<<62", i64::MIN),
            ("-1<<1", -2),
            ("-1<<62", -4611686018427387904),
            ("9223372036854775807<<0", i64::MAX),
            ("(-9223372036854775807-1)<<0", i64::MIN),
            ("-4611686018427387904<<1", i64::MIN),
            ("-7>>1", -4),
            ("7>>1", 3),
            ("-1>>63", -1),
            ("(-9223372036854775807-1)>>63", -1),
            ("(-9223372036854775807-1)>>62", -2),
            ("9223372036854775807>>62", 1),
            ("9223372036854775807>>63", 0),
            ("-8>>1", -4),
            ("-7>>2", -2),
            ("-1>>1", -1),
            ("7>>0", 7),
            ("1>>63", 0),
        ],
    );
}

#[test]
fn bits(rt: HostRuntime) {
    all_give(
        &rt,
        rt.alloc(),
        &[
            ("~0", -1),
            ("~5", -6),
            ("~-1", 0),
            ("~9223372036854775807", i64::MIN),
            ("-1&255", 255),
            ("-8|3", -5),
            ("-1^1", -2),
            ("-1^-1", 0),
            ("-2&-3", -4),
            ("-2|-3", -1),
            ("6&3", 2),
            ("6|3", 7),
            ("6^3", 5),
            ("12&10", 8),
            ("12|10", 14),
            ("12^10", 6),
            ("(-9223372036854775807-1)|1", -9223372036854775807),
            ("(-9223372036854775807-1)&9223372036854775807", 0),
            ("(-9223372036854775807-1)^9223372036854775807", -1),
            ("1|2^3&4", 3),
            ("5&3==3", 1),
            ("6&2==2", 0),
            ("~1&3", 2),
        ],
    );
}

#[test]
fn comparisons(rt: HostRuntime) {
    all_give(
        &rt,
        rt.alloc(),
        &[
            ("-1<0", 1),
            ("-1<1u", 1),
            ("3<=3", 1),
            ("3>=4", 0),
            ("1>=1", 1),
            ("3<3", 0),
            ("3>3", 0),
            ("-5>3", 0),
            ("1!=2", 1),
            ("4==4", 1),
            ("5!=5", 0),
            ("1<2<3", 1),
            ("3>2>1", 0),
            ("2==2==2", 0),
            ("1==1!=0", 1),
            ("9223372036854775807<(-9223372036854775807-1)", 0),
            ("(-9223372036854775807-1)<9223372036854775807", 1),
            ("(-9223372036854775807-1)<=(-9223372036854775807-1)", 1),
            ("1<2==1", 1),
            ("5-3-1<2", 1),
        ],
    );
}

#[test]
fn truths(rt: HostRuntime) {
    all_give(
        &rt,
        rt.alloc(),
        &[
            ("!5", 0),
            ("!0", 1),
            ("!!7", 1),
            ("-!0", -1),
            ("!-1", 0),
            ("~!0", -2),
            ("!1+1", 1),
            ("0&&1/0", 0),
            ("1||1/0", 1),
            ("2&&3", 1),
            ("5&&0", 0),
            ("0||5", 1),
            ("0||0", 0),
            ("1||0&&0", 1),
            ("1&&0||1", 1),
            ("1-1&&1/0", 0),
            ("3>2&&2>1", 1),
            ("((x=3)||(x=1))*10+x", 13),
            ("((x=0)&&(x=1))*10+x", 0),
            ("((x=0)||(x=2))*10+x", 12),
            ("((x=3)&&(x=0))*10+x", 0),
        ],
    );
}

#[test]
fn constants(rt: HostRuntime) {
    all_give(
        &rt,
        rt.alloc(),
        &[
            ("'a'", 97),
            ("'\\n'", 10),
            ("'\\0'", 0),
            ("'\\377'", 255),
            ("'\\x41'", 65),
            ("'\\xff'", 255),
            ("'\\v'", 11),
            ("'\\a'", 7),
            ("'\\b'", 8),
            ("'\\f'", 12),
            ("'\\r'", 13),
            ("'\\t'", 9),
            ("'\\\\'", 92),
            ("'\\''", 39),
            ("'\"'", 34),
            ("' '", 32),
            ("'\\101'", 65),
            ("010", 8),
            ("00", 0),
            ("0777", 511),
            ("0x1F", 31),
            ("0x0", 0),
            ("0xffffffff", 4294967295),
            ("0x7fffffffffffffff", i64::MAX),
            ("0777777777777777777777", i64::MAX),
            ("9223372036854775807", i64::MAX),
            ("-9223372036854775807", -9223372036854775807),
            ("1UL", 1),
            ("1ll", 1),
        ],
    );
}

#[test]
fn sums_and_products(rt: HostRuntime) {
    all_give(
        &rt,
        rt.alloc(),
        &[
            ("2+3*4-1", 13),
            ("10-3-2", 5),
            ("1+2<<3", 24),
            ("1<<2+1", 8),
            ("8>>1+1", 2),
            ("3&1+1", 2),
            ("-2*-3", 6),
            ("- -5", 5),
            ("- - -5", -5),
            ("+-3", -3),
            ("-~5", 6),
            ("7-10/3", 4),
            ("9223372036854775807+0", i64::MAX),
            ("-9223372036854775807-1", i64::MIN),
            ("(-9223372036854775807-1)+1", -9223372036854775807),
            ("(-9223372036854775807-1)*1", i64::MIN),
            ("3037000499*3037000499", 9223372030926249001),
            ("-3037000500*3037000499", -9223372033963249500),
        ],
    );
}

#[test]
fn casts(rt: HostRuntime) {
    all_give(
        &rt,
        rt.alloc(),
        &[
            ("(char)300", 300),
            ("(unsigned)-1", -1),
            ("(void)3", 3),
            ("(char)-1", -1),
            ("(int)4294967296", 4294967296),
            ("(long)s", 4),
        ],
    );
}

#[test]
fn changes(rt: HostRuntime) {
    all_give(
        &rt,
        rt.alloc(),
        &[
            ("x=5", 5),
            ("x=y=3", 3),
            ("s+=2", 6),
            ("s-=1", 3),
            ("s*=-4", -16),
            ("s/=3", 1),
            ("s%=3", 1),
            ("s<<=2", 16),
            ("s>>=1", 2),
            ("s&=6", 4),
            ("s|=3", 7),
            ("s^=5", 1),
            ("s++", 4),
            ("++s", 5),
            ("s--", 4),
            ("--s", 3),
            ("p=3", 3),
            ("(s)=5", 5),
            ("(a[0])=5", 5),
            ("(a)[1]", 20),
            ("s=-9223372036854775807-1", i64::MIN),
        ],
    );
}

#[test]
fn elements(rt: HostRuntime) {
    all_give(
        &rt,
        rt.alloc(),
        &[
            ("a[1]=9", 9),
            ("a[0]+a[1]", 30),
            ("a[s-3]", 20),
            ("u[0]=a[1]", 20),
            ("a[a[0]-9]", 20),
            ("a[0]=a[1]=3", 3),
            ("a[s%2]++", 10),
            ("++a[1]", 21),
            ("a[0]--", 10),
            ("--a[0]", 9),
            ("a[1]*=a[0]", 200),
        ],
    );
}

#[test]
fn operands_go_from_left_to_right(rt: HostRuntime) {
    all_give(
        &rt,
        rt.alloc(),
        &[
            ("(x=5)+x", 10),
            ("s+(s=7)", 11),
            ("(s=7)+s", 14),
            ("s++ +s", 9),
            ("s*s++", 16),
            ("++s*s--", 25),
            ("s-(s-=1)", 1),
            ("(x=1)+(x=2)*x", 5),
            ("s+=(s=1)", 5),
            ("s=s++ +s", 9),
            ("s-=s--", 0),
            ("a[s-4]=s=1", 1),
            ("(a[s=1]=5)+a[1]", 10),
            ("a[s-4]+=(s=5)", 15),
            ("a[s-4]+=a[0]=1", 11),
            ("a[(s=0)]=s", 0),
            ("(a[1]=s++)*10+s", 45),
        ],
    );
}

#[test]
fn values_that_are_handed_in(rt: HostRuntime) {
    all_give(
        &rt,
        rt.alloc(),
        &[
            ("h", 41),
            ("h+1", 42),
            ("-h", -41),
            ("h*h", 1681),
            ("a[h-40]", 20),
        ],
    );
}

#[test]
fn what_overflows(rt: HostRuntime) {
    all_stop(
        &rt,
        rt.alloc(),
        &[
            ("(-9223372036854775807-1)/-1", "overflow", 1),
            ("-(-9223372036854775807-1)", "overflow", 1),
            ("1<<63", "overflow", 1),
            ("2<<62", "overflow", 1),
            ("3<<62", "overflow", 1),
            ("9223372036854775807<<1", "overflow", 1),
            ("(-9223372036854775807-1)<<1", "overflow", 1),
            ("-4611686018427387905<<1", "overflow", 1),
            ("1<<64", "overflow", 1),
            ("0<<64", "overflow", 1),
            ("1<<-1", "overflow", 1),
            ("0<<-1", "overflow", 1),
            ("5>>64", "overflow", 1),
            ("0>>64", "overflow", 1),
            ("5>>-1", "overflow", 1),
            ("9223372036854775808", "overflow", 1),
            ("-9223372036854775808", "overflow", 2),
            ("18446744073709551615u", "overflow", 1),
            ("0x8000000000000000", "overflow", 1),
            ("01000000000000000000000", "overflow", 1),
            ("9223372036854775807+1", "overflow", 1),
            ("-9223372036854775807-2", "overflow", 1),
            ("3037000500*3037000500", "overflow", 1),
            ("(-9223372036854775807-1)-1", "overflow", 1),
            ("(-9223372036854775807-1)*-1", "overflow", 1),
            ("-1*(-9223372036854775807-1)", "overflow", 1),
            ("0-(-9223372036854775807-1)", "overflow", 1),
            ("9223372036854775807- -1", "overflow", 1),
            ("1+(2+9223372036854775807)", "overflow", 4),
            ("s=9223372036854775807+1", "overflow", 3),
            ("s+=9223372036854775807", "overflow", 1),
            ("s*=9223372036854775807", "overflow", 1),
            ("s<<=64", "overflow", 1),
            ("s>>=-1", "overflow", 1),
            ("(x=9223372036854775807)+x++", "overflow", 25),
            ("x=(y=9223372036854775807)+1", "overflow", 3),
        ],
    );
}

#[test]
fn what_divides_by_zero(rt: HostRuntime) {
    all_stop(
        &rt,
        rt.alloc(),
        &[
            ("1/0", "division", 1),
            ("1%0", "division", 1),
            ("0%0", "division", 1),
            ("(-9223372036854775807-1)%0", "division", 1),
            ("2+3%0", "division", 3),
            ("1/(2-2)", "division", 1),
            ("(2-2)/(2-2)", "division", 1),
            ("1&&1/0", "division", 4),
            ("0||1/0", "division", 4),
            ("s/=0", "division", 1),
            ("s%=0", "division", 1),
            ("a[1]/=0", "division", 1),
            ("a[1/0]", "division", 3),
            ("a[0]=1/0", "division", 6),
            ("q=1/0", "division", 3),
            ("a=1/0", "division", 3),
            ("h=1/0", "division", 3),
            ("h+=1/0", "division", 4),
            ("s[1/0]", "division", 3),
            ("(1/0)++", "division", 2),
            ("1/0+x", "division", 1),
            ("sizeof(1/0)", "division", 8),
        ],
    );
}

#[test]
fn what_is_outside_an_array(rt: HostRuntime) {
    all_stop(
        &rt,
        rt.alloc(),
        &[
            ("a[2]", "index", 1),
            ("a[-1]", "index", 1),
            ("a[2]=1", "index", 1),
            ("a[9]=1/0", "index", 1),
            ("a[2]+=1/0", "index", 1),
            ("a[9223372036854775807]", "index", 1),
            ("a[-9223372036854775807-1]", "index", 1),
            ("1+a[2]", "index", 3),
            ("&a[9]+0", "index", 2),
            ("u[2]++", "index", 1),
            ("++u[2]", "index", 3),
            ("a[a[0]]", "index", 1),
        ],
    );
}

#[test]
fn what_is_unset(rt: HostRuntime) {
    all_stop(
        &rt,
        rt.alloc(),
        &[
            ("+x", "unset", 2),
            ("x+0", "unset", 1),
            ("-x", "unset", 2),
            ("!x", "unset", 2),
            ("u[1]", "unset", 1),
            ("x+=1/0", "unset", 1),
            ("x++", "unset", 1),
            ("--x", "unset", 3),
            ("u[0]++", "unset", 1),
            ("++u[0]", "unset", 3),
            ("u[0]+=1", "unset", 1),
            ("a[u[0]]", "unset", 3),
            ("a[x]", "unset", 3),
            ("u[1]=u[0]", "unset", 6),
            ("p", "unset", 1),
            ("p+1", "unset", 1),
            ("*x", "unset", 2),
            ("&x+0", "unset", 2),
            ("x[0]", "unset", 1),
            ("x[1/0]", "unset", 1),
            ("sizeof x", "unset", 8),
            ("(void)x", "unset", 7),
            ("(x+1)=2", "unset", 2),
            ("x=x", "unset", 3),
            ("x=x+1", "unset", 3),
        ],
    );
}

#[test]
fn what_is_unknown(rt: HostRuntime) {
    all_stop(
        &rt,
        rt.alloc(),
        &[
            ("+q", "unknown", 2),
            ("q+1", "unknown", 1),
            ("q++", "unknown", 1),
            ("q--", "unknown", 1),
            ("++q", "unknown", 3),
            ("q+=1", "unknown", 1),
            ("q[0]", "unknown", 1),
            ("&q+0", "unknown", 2),
            ("*q", "unknown", 2),
            ("sizeof q", "unknown", 8),
            ("a[q]", "unknown", 3),
        ],
    );
}

#[test]
fn what_has_no_value(rt: HostRuntime) {
    all_stop(
        &rt,
        rt.alloc(),
        &[
            ("h=1", "form", 1),
            ("h++", "form", 1),
            ("--h", "form", 1),
            ("h+=1", "form", 1),
            ("q=1", "form", 1),
            ("h[0]", "form", 1),
            ("+a", "form", 2),
            ("a+1", "form", 1),
            ("1+a", "form", 3),
            ("!a", "form", 2),
            ("a++", "form", 1),
            ("++a", "form", 3),
            ("a==a", "form", 1),
            ("a[a]", "form", 3),
            ("a=1", "form", 1),
            ("a+=1/0", "form", 1),
            ("+\"t\"", "form", 2),
            ("\"t\"[0]", "form", 1),
            ("*\"t\"", "form", 2),
            ("1[a]", "form", 3),
            ("sizeof(int)", "form", 1),
            ("sizeof s", "form", 1),
            ("sizeof a", "form", 8),
            ("sizeof(x=1)", "form", 1),
            ("sizeof(char)*2", "form", 1),
            ("*s", "form", 1),
            ("**s", "form", 2),
            ("*a", "form", 2),
            ("*a[0]", "form", 1),
            ("!&s", "form", 2),
            ("&s+0", "form", 1),
            ("&a[0]+0", "form", 1),
            ("s[0]", "form", 1),
            ("1=2", "form", 1),
            ("(s+1)=2", "form", 1),
            ("-s=3", "form", 1),
            ("s++=1", "form", 1),
            ("1++", "form", 1),
            ("++1", "form", 1),
            ("(s=1)++", "form", 1),
            ("1+=2", "form", 1),
        ],
    );
}
