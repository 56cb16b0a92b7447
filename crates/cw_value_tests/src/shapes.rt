//! Names that have two meanings.

use crate::ground::all_told;

#[test]
fn the_first_name_of_two_meanings_is_told(rt: HostRuntime) {
    all_told(
        &rt,
        rt.alloc(),
        "format = 1\n",
        &[
            (
                "int main(void){int x;{int x;}return 0;}",
                "",
                "value form at 26",
            ),
            ("int main(int p){int p;return 0;}", "", "value form at 20"),
            (
                "int main(void){int g;return 0;}int f(int p,int q,int p){return 0;}",
                "",
                "value form at 53",
            ),
            (
                "int g;int main(void){int a,g;return 0;}",
                "",
                "value form at 27",
            ),
            (
                "int main(void){int g;return 0;}int g;",
                "",
                "value form at 19",
            ),
            (
                "int g[2];int main(void){int a;int g;}",
                "",
                "value form at 34",
            ),
            (
                "int main(void){static int s;return 0;}",
                "",
                "value form at 26",
            ),
            (
                "int main(void){int a;static int a,b;}",
                "",
                "value form at 32",
            ),
            (
                "int main(void){for(int i=0;;){int i;}return 0;}",
                "",
                "value form at 34",
            ),
            (
                "int main(void){for(int i=0;;){}for(int i=0;;){}}",
                "",
                "value form at 39",
            ),
            (
                "int main(void){int x;int f;int x[2];{int f;}}",
                "",
                "value form at 31",
            ),
            (
                "int main(void){if(1){int x;}else{int x;}}",
                "",
                "value form at 37",
            ),
            (
                "void f(int g){}int g;int main(void){return 0;}",
                "",
                "value form at 11",
            ),
            (
                "void f(int x){}void h(int x){int y,y;}int main(void){int x,x;}",
                "",
                "value form at 35",
            ),
            (
                "int main(void){int x=1/0;extern int x;}",
                "",
                "value form at 36",
            ),
        ],
    );
}

#[test]
fn other_names_are_told_apart(rt: HostRuntime) {
    all_told(
        &rt,
        rt.alloc(),
        "format = 1\n",
        &[
            (
                "int main(void){int x;int y;x=1;y=x;return 0;}",
                "",
                "tries 0\nended\n",
            ),
            (
                "void f(int x){}void h(int x){int y;}int y2;int main(void){int x,y;return 0;}",
                "",
                "tries 0\nended\n",
            ),
            (
                "int f(int f2);int f2;int g;int g;static int s;int main(void){return 0;}",
                "",
                "tries 0\nended\n",
            ),
            ("int main(void){x:;int x;}", "", "tries 0\nended\n"),
        ],
    );
}
