//! Programs that call what they don't define, that open and close, and that make as many steps as a run may.

use crate::ground::all_told;

const PLAIN: &str = "format = 1\n";

#[test]
fn calls_and_their_answers(rt: HostRuntime) {
    all_told(
        &rt,
        rt.alloc(),
        PLAIN,
        &[
            (
                "int arr[2];int main(void){put(\"s\\n\" \"t\",&arr,arr,stderr,arr[0]);}",
                "call 1\n",
                "call put(\"s\\n\" \"t\",&arr,arr,stderr,0) = 1\ntries 0\nended\n",
            ),
            (
                "int main(void){int x;put(&x,& x,&(x),&q,(\"a\"),(q));}",
                "call 1\n",
                "call put(&x,& x,&(x),&q,\"a\",q) = 1\ntries 0\nended\n",
            ),
            (
                "int main(void){put(\"a\"\n\"b\");}",
                "call 1\n",
                "call put(\"a\"\n\"b\") = 1\ntries 0\nended\n",
            ),
            (
                "int main(void){put(1);put(2);}",
                "call 5\n",
                "call put(1) = 5\ntries 0\nstop answers 1:23\n",
            ),
            (
                "int main(void){put(1/0);}",
                "",
                "tries 0\nstop division 1:20\n",
            ),
            (
                "int main(void){put();put(-1,-0,+1);}",
                "call -9223372036854775808\ncall 9223372036854775807\n",
                "call put() = -9223372036854775808\ncall put(-1,0,1) = 9223372036854775807\ntries 0\nended\n",
            ),
            (
                "int main(void){int x;x=get(1)+1;put(x);}",
                "call 9223372036854775807\n",
                "call get(1) = 9223372036854775807\ntries 0\nstop overflow 1:24\n",
            ),
            (
                "int main(void){int x;x=-get(1);put(x);}",
                "call -9223372036854775808\n",
                "call get(1) = -9223372036854775808\ntries 0\nstop overflow 1:24\n",
            ),
            (
                "int main(void){get(0);get(1);}",
                "call 1\ncall 2\ncall 3\ncall 4\n",
                "call get(0) = 1\ncall get(1) = 2\ntries 0\nended\n",
            ),
            (
                "int main(void){int x=2;put(x,x=3,x);}",
                "call 0\n",
                "call put(2,3,3) = 0\ntries 0\nended\n",
            ),
            (
                "int main(void){int x;put(x=1,y+0);}",
                "call 0\n",
                "tries 0\nstop unknown 1:30\n",
            ),
            (
                "int main(void){close(9);put(1);}",
                "call 4\ncall 5\n",
                "call close(9) = 4\ncall put(1) = 5\ntries 0\nended\n",
            ),
            (
                "int main(void){a:;int get;put(get=2);}",
                "call 0\n",
                "call put(2) = 0\ntries 0\nended\n",
            ),
        ],
    );
}

#[test]
fn opens_and_closes(rt: HostRuntime) {
    all_told(
        &rt,
        rt.alloc(),
        "format = 1\n[[descriptor]]\nname = \"fd\"\n",
        &[
            (
                "int fd;int main(void){fd=open_it(1);if(fd<0)put(1);close(fd);fd=open_it(2);put(fd);}",
                "call 4\ncall 0\ncall -1\ncall 0\n",
                "call open_it(1) = 4\ncall close(4) = 0\ncall open_it(2) = -1\ncall put(-1) = 0\ntries 0\nended\n",
            ),
            (
                "int fd=-1;int main(void){put(fd);fd=open_it(1/0);}",
                "call 0\ncall 5\n",
                "call put(-1) = 0\ntries 0\nstop division 1:45\n",
            ),
            (
                "int fd;int main(void){put(fd);fd=open_it(1);fd=open_it(fd);put(fd);}",
                "call 0\ncall 3\ncall -9\ncall 0\n",
                "call put(0) = 0\ncall open_it(1) = 3\ncall open_it(3) = -9\ncall put(-9) = 0\ntries 0\nended\n",
            ),
            (
                "int fd;int main(void){close(fd);close(fd);close(fd);}",
                "call -1\ncall 7\n",
                "call close(0) = -1\ncall close(0) = 7\ntries 0\nstop answers 1:43\n",
            ),
            (
                "int fd;int main(void){fd=open_it(1);}",
                "",
                "tries 0\nstop answers 1:26\n",
            ),
            (
                "int fd;int v;int main(void){v=open_it(\"f\");fd=open_it(v);while(fd<0){put(v);v=v-1;fd=open_it(v);}close(fd);}",
                "call 2\ncall -1\ncall 8\ncall 6\ncall 9\n",
                "call open_it(\"f\") = 2\ncall open_it(2) = -1\ncall put(2) = 8\ncall open_it(1) = 6\ncall close(6) = 9\ntries 0\nended\n",
            ),
        ],
    );
}

#[test]
fn as_many_steps_as_there_may_be(rt: HostRuntime) {
    all_told(
        &rt,
        rt.alloc(),
        PLAIN,
        &[
            (
                "int main(void){int i=0;;while(i<499997)i++;}",
                "",
                "tries 0\nended\n",
            ),
            (
                "int main(void){int i=0;while(i<499998)i++;}",
                "",
                "tries 0\nended\n",
            ),
            (
                "int main(void){int i=0;;while(i<499998)i++;}",
                "",
                "tries 0\nstop steps\n",
            ),
        ],
    );
}

#[test]
fn what_the_last_step_does(rt: HostRuntime) {
    all_told(
        &rt,
        rt.alloc(),
        PLAIN,
        &[
            (
                "int main(void){int i=0;while(i<499998)i++;put(i);}",
                "call 6\n",
                "call put(499998) = 6\ntries 0\nstop steps\n",
            ),
            (
                "int main(void){int i=0;;while(i<499998)i++;put(i);}",
                "call 6\n",
                "tries 0\nstop steps\n",
            ),
            (
                "int main(void){int i=0;while(i<499998)i++;put(1/0);}",
                "call 6\n",
                "tries 0\nstop division 1:47\n",
            ),
            (
                "int main(void){int i=0;;while(i<499998)i++;put(1/0);}",
                "call 6\n",
                "tries 0\nstop steps\n",
            ),
        ],
    );
}

#[test]
fn runs_without_an_end(rt: HostRuntime) {
    all_told(
        &rt,
        rt.alloc(),
        PLAIN,
        &[
            ("int main(void){while(1);}", "", "tries 0\nstop steps\n"),
            (
                "int main(void){int i=0;for(;;)i=i+1;}",
                "",
                "tries 0\nstop steps\n",
            ),
            (
                "void f(void){f();}int main(void){f();}",
                "",
                "tries 0\nstop steps\n",
            ),
            (
                "int main(void){int i=0;while(get(i))i++;}",
                "call 1\ncall 1\n",
                "call get(0) = 1\ncall get(1) = 1\ntries 0\nstop answers 1:30\n",
            ),
        ],
    );
}
