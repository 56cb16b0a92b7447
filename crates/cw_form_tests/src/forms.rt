//! The forms of sources, by where the calls stand.

use crate::ground::{F, all_formed, all_told};

#[test]
fn a_call_stands_between_both_texts(rt: HostRuntime) {
    all_formed(
        &rt,
        rt.alloc(),
        &[
            ("f(1);", "@f(1);$"),
            ("(f(1));", "@(f(1));$"),
            ("f(1);f(2);", "@f(1);$@f(2);$"),
            ("f((int)1);", "@f((int)1);$"),
            ("{f(1);}", "{@f(1);$}"),
            ("return 0;f(1);", "return 0;@f(1);$"),
            ("a:f(1);", "a:@f(1);$"),
            ("a:/*x*/b: f(1) /* y */ ;", "a:/*x*/b: @f(1) /* y */ ;$"),
        ],
    );
}

#[test]
fn a_call_as_an_arm_or_a_body_stays_one_statement(rt: HostRuntime) {
    all_formed(
        &rt,
        rt.alloc(),
        &[
            ("if(c)f(1);else g();", "if(c)@f(1);$else g();"),
            ("if(c)if(d)f(1);else g();", "if(c)if(d)@f(1);$else g();"),
            ("if(c)f(1);else f(2);", "if(c)@f(1);$else @f(2);$"),
            ("if(c)g();else(f(1));", "if(c)g();else@(f(1));$"),
            ("if(c);else f(1);", "if(c);else @f(1);$"),
            (
                "if(c)if(d);else f(1);else f(2);",
                "if(c)if(d);else @f(1);$else @f(2);$",
            ),
            ("while(c)f(1);", "while(c)@f(1);$"),
            ("do f(1);while(c);", "do @f(1);$while(c);"),
            ("for(;;)f(1);", "for(;;)@f(1);$"),
            ("do a:f(1);while(d);", "do a:@f(1);$while(d);"),
            ("while(c){f(1);break;}", "while(c){@f(1);$break;}"),
        ],
    );
}

#[test]
fn the_bytes_of_a_statement_stay(rt: HostRuntime) {
    all_formed(
        &rt,
        rt.alloc(),
        &[
            ("f(1)//x\n;", "@f(1)//x\n;$"),
            ("f(\n#include <x>\n1);", "@f(\n#include <x>\n1);$"),
            ("f(';');", "@f(';');$"),
            ("f(\"}\"[0]);", "@f(\"}\"[0]);$"),
            ("puts(\"fork\");f(1);", "puts(\"fork\");@f(1);$"),
            ("/*fork*/f(1);//_exit\n", "/*fork*/@f(1);$//_exit\n"),
            ("forks();my_fork();f(1);", "forks();my_fork();@f(1);$"),
        ],
    );
}

#[test]
fn calls_are_replaced_in_every_function(rt: HostRuntime) {
    all_told(
        &rt,
        rt.alloc(),
        F,
        &[
            (
                "void f(int x){if(x)f(x-1);}int main(void){f(1);return 0;}",
                "void f(int x){if(x)@f(x-1);$}int main(void){@f(1);$return 0;}",
            ),
            (
                "void f(int x);int main(void){f(1);return 0;}void f(int x){}",
                "void f(int x);int main(void){@f(1);$return 0;}void f(int x){}",
            ),
            (
                "int f(int x){return x;}int main(void){f(1);return 0;}",
                "int f(int x){return x;}int main(void){@f(1);$return 0;}",
            ),
            (
                "void g(void){}void f(int x){g();}int main(void){f(1);g();return 0;}",
                "void g(void){}void f(int x){g();}int main(void){@f(1);$g();return 0;}",
            ),
        ],
    );
}

#[test]
fn calls_of_each_detached_function_are_replaced(rt: HostRuntime) {
    all_told(
        &rt,
        rt.alloc(),
        "format = 2\ndetached = [\"f\", \"g\"]\n",
        &[(
            "void g(void){}void f(int x){g();}int main(void){f(1);g();return 0;}",
            "void g(void){}void f(int x){@g();$}int main(void){@f(1);$@g();$return 0;}",
        )],
    );
}

#[test]
fn without_detached_functions_the_form_is_the_source(rt: HostRuntime) {
    let source = "void f(int x){}int main(void){f(1);return 0;}";
    all_told(&rt, rt.alloc(), "format = 2\n", &[(source, source)]);
    all_told(&rt, rt.alloc(), "format = 1\n", &[(source, source)]);
}
