//! Small programs with what their runs show, reckoned by hand.

use crate::ground::all_told;

const PLAIN: &str = "format = 1\n";

#[test]
fn calls_and_returns(rt: HostRuntime) {
    all_told(
        &rt,
        rt.alloc(),
        PLAIN,
        &[
            (
                "int f(int x){a:;return x+1;}\nint main(void){int y;y=f(1);b:;put(y);return 0;}\n",
                "call 7\n",
                "call put(2) = 7\ntries 0\nended\n",
            ),
            (
                "int main(void){put(1/0);return 0;}\n",
                "",
                "tries 0\nstop division 1:20\n",
            ),
            (
                "int f(int n){int r;if(n<2){return 1;}r=f(n-1);return r*n;}int main(void){int r;r=f(10);put(r);}",
                "call 0\n",
                "call put(3628800) = 0\ntries 0\nended\n",
            ),
            (
                "int f(int n){int r;if(n<2)return n;int q;r=f(n-1);q=f(n-2);return r+q;}int main(void){int r;r=f(15);put(r);}",
                "call 0\n",
                "call put(610) = 0\ntries 0\nended\n",
            ),
            (
                "int f(int n){int r;if(n==0)return 0;r=f(n-1);return r+1;}int main(void){int x;x=f(100000);put(x);}",
                "call 0\n",
                "call put(100000) = 0\ntries 0\nended\n",
            ),
            (
                "int a(int n){int r;if(n==0)return 1;r=b(n-1);return r;}int b(int n){int r;if(n==0)return 0;r=a(n-1);return r;}int main(void){int x;x=a(7);put(x);x=a(8);put(x);}",
                "call 0\ncall 0\n",
                "call put(0) = 0\ncall put(1) = 0\ntries 0\nended\n",
            ),
            (
                "int f(int x,int y){x=x*10+y;return x;}int main(void){int x=1,y=2;x=f(y,x+2);put(x,y);}",
                "call 0\n",
                "call put(23,2) = 0\ntries 0\nended\n",
            ),
            (
                "void f(void){}int main(void){f();put(5);}",
                "call 0\n",
                "call put(5) = 0\ntries 0\nended\n",
            ),
            (
                "void f(void){return 1/0;}int main(void){f();put(5);}",
                "call 0\n",
                "tries 0\nstop division 1:21\n",
            ),
            (
                "int f(void){return;}int main(void){f();put(5);}",
                "call 0\n",
                "call put(5) = 0\ntries 0\nended\n",
            ),
            (
                "int main(void){return 1/0;}",
                "",
                "tries 0\nstop division 1:23\n",
            ),
            (
                "int main(void){put(1);return 0;put(2);}",
                "call 0\ncall 0\n",
                "call put(1) = 0\ntries 0\nended\n",
            ),
            (
                "int g;void f(void){g=g+1;}int main(void){f();f();put(g);}",
                "call 0\n",
                "call put(2) = 0\ntries 0\nended\n",
            ),
            (
                "int g;int f(void){g=7;return g+1;}int main(void){g=f();put(g);}",
                "call 0\n",
                "call put(8) = 0\ntries 0\nended\n",
            ),
            (
                "int f(int a){int b[2];b[0]=a;if(a)f(a-1);put(b[0]);}int main(void){f(2);}",
                "call 0\ncall 0\ncall 0\n",
                "call put(0) = 0\ncall put(1) = 0\ncall put(2) = 0\ntries 0\nended\n",
            ),
            (
                "int f(int a[]){return a;}int main(void){int x;x=f(3);put(x);}",
                "call 0\n",
                "call put(3) = 0\ntries 0\nended\n",
            ),
        ],
    );
}

#[test]
fn results(rt: HostRuntime) {
    all_told(
        &rt,
        rt.alloc(),
        PLAIN,
        &[
            (
                "void f(void){}int main(void){int x;x=f();}",
                "",
                "tries 0\nstop form 1:38\n",
            ),
            (
                "int f(int n){if(n)return 7;}int main(void){int x;x=f(1);put(x);x=f(0);}",
                "call 0\n",
                "call put(7) = 0\ntries 0\nstop form 1:66\n",
            ),
            (
                "int f(void){return 7;}int g(void){f();}int main(void){int x;x=g();}",
                "",
                "tries 0\nstop form 1:63\n",
            ),
            (
                "int f(void){return 7;}int g(void){int x;x=f();}int main(void){int x;x=g();}",
                "",
                "tries 0\nstop form 1:71\n",
            ),
            (
                "int f(void){put(1);}int main(void){x=f();}",
                "call 0\n",
                "call put(1) = 0\ntries 0\nstop form 1:38\n",
            ),
            (
                "int f(void){put(1);return 2;}int main(void){x=f();}",
                "call 0\n",
                "call put(1) = 0\ntries 0\nstop form 1:45\n",
            ),
            (
                "int f(void){put(1);return 2;}int main(void){int x[3];x=f();}",
                "call 0\n",
                "call put(1) = 0\ntries 0\nstop form 1:54\n",
            ),
            (
                "int f(void){put(1);return 2;}int main(void){(x)=(f());}",
                "call 0\n",
                "call put(1) = 0\ntries 0\nstop form 1:45\n",
            ),
            (
                "int f(int x){return x;}int main(void){f(\"t\");}",
                "",
                "tries 0\nstop form 1:41\n",
            ),
            (
                "int f(int x){return x;}int main(void){int a[1];f(a);}",
                "",
                "tries 0\nstop form 1:50\n",
            ),
            (
                "int f(int x){return x;}int main(void){int a;f(&a);}",
                "",
                "tries 0\nstop unset 1:48\n",
            ),
            (
                "int f(int x){return x;}int main(void){int a=1;f(&a);}",
                "",
                "tries 0\nstop form 1:49\n",
            ),
            (
                "int f(int x){return x;}int main(void){f(a);}",
                "",
                "tries 0\nstop unknown 1:41\n",
            ),
            (
                "int f(int x,int y){return x;}int main(void){f(1/0,b);}",
                "",
                "tries 0\nstop division 1:47\n",
            ),
            (
                "int f(int x){return x;}int main(void){int y;put(1);y=f(2/0);}",
                "call 3\ncall 4\n",
                "call put(1) = 3\ntries 0\nstop division 1:56\n",
            ),
        ],
    );
}

#[test]
fn statements(rt: HostRuntime) {
    all_told(
        &rt,
        rt.alloc(),
        PLAIN,
        &[
            (
                "int main(void){int i,t=0;for(i=0;i<10;i++){if(i==3)continue;if(i==7)break;t+=i;}put(t,i);}",
                "call 0\n",
                "call put(18,7) = 0\ntries 0\nended\n",
            ),
            (
                "int main(void){int i=0;do{i++;}while(i<5);while(i>2)i-=2;put(i);}",
                "call 0\n",
                "call put(1) = 0\ntries 0\nended\n",
            ),
            (
                "int main(void){int i=5,t=0;while(i-->0)t=t*10+i;put(t,i);}",
                "call 0\n",
                "call put(43210,-1) = 0\ntries 0\nended\n",
            ),
            (
                "int main(void){int i=0;for(;;){if(i>=3)break;i++;}put(i);}",
                "call 0\n",
                "call put(3) = 0\ntries 0\nended\n",
            ),
            (
                "int main(void){int t=0;for(int i=3;i;i--)t+=i;put(t);}",
                "call 0\n",
                "call put(6) = 0\ntries 0\nended\n",
            ),
            (
                "int main(void){int i=0;do{i++;if(i<3)continue;break;}while(1);put(i);}",
                "call 0\n",
                "call put(3) = 0\ntries 0\nended\n",
            ),
            (
                "int main(void){int i,j,t=0;for(i=0;i<3;i++)for(j=0;j<3;j++){if(j==2)break;if(i==j)continue;t=t*10+i+j;}put(t);}",
                "call 0\n",
                "call put(1123) = 0\ntries 0\nended\n",
            ),
            (
                "int main(void){if(get(1))put(1);else put(2);if(get(2))put(3);else put(4);if(get(3))put(5);else{}}",
                "call -1\ncall 0\ncall 0\ncall 0\ncall 0\n",
                "call get(1) = -1\ncall put(1) = 0\ncall get(2) = 0\ncall put(4) = 0\ncall get(3) = 0\ntries 0\nended\n",
            ),
            (
                "int main(void){int i=0;while(get(i))i++;put(i);}",
                "call 1\ncall 1\ncall 0\ncall 9\n",
                "call get(0) = 1\ncall get(1) = 1\ncall get(2) = 0\ncall put(2) = 9\ntries 0\nended\n",
            ),
            (
                "int main(void){int i;for(i=get(0);i<get(1);i+=get(2))put(i);}",
                "call 0\ncall 2\ncall 8\ncall 1\ncall 2\ncall 8\ncall 1\ncall 1\n",
                "call get(0) = 0\ncall get(1) = 2\ncall put(0) = 8\ncall get(2) = 1\ncall get(1) = 2\ncall put(1) = 8\ncall get(2) = 1\ncall get(1) = 1\ntries 0\nended\n",
            ),
            (
                "int main(void){int x;if(x)put(1);}",
                "call 0\n",
                "tries 0\nstop unset 1:25\n",
            ),
            (
                "int main(void){while(1/0)put(1);}",
                "call 0\n",
                "tries 0\nstop division 1:22\n",
            ),
            (
                "int main(void){do put(1);while(1/0);}",
                "call 0\ncall 0\n",
                "call put(1) = 0\ntries 0\nstop division 1:32\n",
            ),
            (
                "int main(void){int i;for(i=0;;i=1/0)put(i);}",
                "call 0\ncall 0\n",
                "call put(0) = 0\ntries 0\nstop division 1:33\n",
            ),
            (
                "int main(void){a:put(1);{b:;c:put(2);}}",
                "call 0\ncall 0\n",
                "call put(1) = 0\ncall put(2) = 0\ntries 0\nended\n",
            ),
            (
                "int main(void){;{}{;}if(0);else;put(1);}",
                "call 0\n",
                "call put(1) = 0\ntries 0\nended\n",
            ),
        ],
    );
}

#[test]
fn changes_in_order(rt: HostRuntime) {
    all_told(
        &rt,
        rt.alloc(),
        PLAIN,
        &[
            (
                "int main(void){int i=0;int a[2]={1,2};a[i++]+=1;put(a[0],a[1],i);}",
                "call 0\n",
                "call put(2,2,1) = 0\ntries 0\nended\n",
            ),
            (
                "int main(void){int i=0;int a[2]={7,8};a[i]=i=1;put(a[0],a[1]);}",
                "call 0\n",
                "call put(1,8) = 0\ntries 0\nended\n",
            ),
            (
                "int main(void){int x=1;x+=(x=5);put(x);}",
                "call 0\n",
                "call put(6) = 0\ntries 0\nended\n",
            ),
            (
                "int main(void){int i=0;int a[3]={5,6,7};a[++i]=i++;put(a[0],a[1],a[2],i);}",
                "call 0\n",
                "call put(5,1,7,2) = 0\ntries 0\nended\n",
            ),
            (
                "int main(void){int i=1;int a[2]={5,6};a[i--]-=a[i];put(a[0],a[1],i);}",
                "call 0\n",
                "call put(5,1,0) = 0\ntries 0\nended\n",
            ),
            (
                "int main(void){int i=2;put(i,i++,i,++i,i--,i);}",
                "call 0\n",
                "call put(2,2,3,4,4,3) = 0\ntries 0\nended\n",
            ),
            (
                "int main(void){int i=1;i=i++*10+i;put(i);}",
                "call 0\n",
                "call put(12) = 0\ntries 0\nended\n",
            ),
            (
                "int main(void){int i=9;put(0&&i++,1||i++,i);}",
                "call 0\n",
                "call put(0,1,9) = 0\ntries 0\nended\n",
            ),
            (
                "int main(void){int a[2]={3,4};int i=0;a[i]=a[1]/(i=0);}",
                "",
                "tries 0\nstop division 1:44\n",
            ),
            (
                "int main(void){int x=3;x=put(x)+x;put(x);}",
                "call 5\ncall 0\n",
                "call put(3) = 5\ncall put(8) = 0\ntries 0\nended\n",
            ),
            (
                "int main(void){int x=3;x+=put(x=4);put(x);}",
                "call 5\ncall 0\n",
                "call put(4) = 5\ncall put(8) = 0\ntries 0\nended\n",
            ),
        ],
    );
}

#[test]
fn declarations(rt: HostRuntime) {
    all_told(
        &rt,
        rt.alloc(),
        PLAIN,
        &[
            ("int main(void){int x=x;}", "", "tries 0\nstop unset 1:22\n"),
            (
                "int main(void){int x=3;x=x;put(x);}",
                "call 0\n",
                "call put(3) = 0\ntries 0\nended\n",
            ),
            (
                "int main(void){int i;for(i=0;i<2;i++){int x;if(i==0)x=1;put(x);}}",
                "call 0\ncall 0\n",
                "call put(1) = 0\ntries 0\nstop unset 1:61\n",
            ),
            (
                "int main(void){int i;for(i=0;i<2;i++){int x=i+5;put(x);x=9;}}",
                "call 0\ncall 0\n",
                "call put(5) = 0\ncall put(6) = 0\ntries 0\nended\n",
            ),
            (
                "int main(void){int i;for(i=0;i<2;i++){int b[2];if(i==0)b[0]=1;put(b[0]);}}",
                "call 0\ncall 0\n",
                "call put(1) = 0\ntries 0\nstop unset 1:67\n",
            ),
            (
                "int main(void){int i;for(i=0;i<2;i++){int b[3]={i+1};put(b[0],b[1],b[2]);b[1]=7;b[2]=7;}}",
                "call 0\ncall 0\n",
                "call put(1,0,0) = 0\ncall put(2,0,0) = 0\ntries 0\nended\n",
            ),
            (
                "int main(void){int i;for(i=1;i<3;i++){int b[i];put(b[i-1]=i);b[i]=0;}}",
                "call 0\ncall 0\n",
                "call put(1) = 0\ntries 0\nstop index 1:62\n",
            ),
            (
                "int main(void){int i=0;while(i<400000){int b[65536];b[65535]=i;i++;}}",
                "",
                "tries 0\nstop steps\n",
            ),
            (
                "int main(void){int a[2]={1,a[0]};put(a[0],a[1]);}",
                "call 0\n",
                "call put(1,1) = 0\ntries 0\nended\n",
            ),
            (
                "int main(void){int a[2]={a[1],1};}",
                "",
                "tries 0\nstop unset 1:26\n",
            ),
            (
                "int main(void){int c[3]={1};put(c[0],c[1],c[2]);}",
                "call 0\n",
                "call put(1,0,0) = 0\ntries 0\nended\n",
            ),
            (
                "int main(void){int c[]={4,5};put(c[1]);put(c[2]);}",
                "call 0\ncall 0\n",
                "call put(5) = 0\ntries 0\nstop index 1:44\n",
            ),
            (
                "int main(void){int c[];put(c[0]);}",
                "call 0\n",
                "tries 0\nstop index 1:28\n",
            ),
            (
                "int main(void){int c[0];put(c[0]);}",
                "call 0\n",
                "tries 0\nstop index 1:29\n",
            ),
            (
                "int main(void){int n=3;int c[n+1];c[n]=2;put(c[3]);c[4]=1;}",
                "call 0\n",
                "call put(2) = 0\ntries 0\nstop index 1:52\n",
            ),
            (
                "int main(void){int c[get(0)];c[1]=1;put(c[1]);put(c[0]);}",
                "call 2\ncall 0\ncall 0\n",
                "call get(0) = 2\ncall put(1) = 0\ntries 0\nstop unset 1:51\n",
            ),
            (
                "int main(void){int n=-1;int c[n];}",
                "",
                "tries 0\nstop form 1:31\n",
            ),
            (
                "int main(void){int c[65536];c[65535]=4;put(c[65535]);}",
                "call 0\n",
                "call put(4) = 0\ntries 0\nended\n",
            ),
            (
                "int main(void){int c[65537];}",
                "",
                "tries 0\nstop form 1:22\n",
            ),
            (
                "int main(void){int c[1/0]={2};}",
                "",
                "tries 0\nstop division 1:22\n",
            ),
            (
                "int main(void){int c[1]={2,1/0};}",
                "",
                "tries 0\nstop form 1:28\n",
            ),
            (
                "int main(void){int c[1]={1/0,2};}",
                "",
                "tries 0\nstop division 1:26\n",
            ),
            (
                "int main(void){int c[2]=1/0;}",
                "",
                "tries 0\nstop form 1:25\n",
            ),
            (
                "int main(void){char c[]=\"ab\";}",
                "",
                "tries 0\nstop form 1:25\n",
            ),
            (
                "int main(void){int c[x]=1;}",
                "",
                "tries 0\nstop unknown 1:22\n",
            ),
            (
                "int main(void){int x={1};put(x);}",
                "call 0\n",
                "call put(1) = 0\ntries 0\nended\n",
            ),
            (
                "int main(void){int x={1,2};}",
                "",
                "tries 0\nstop form 1:25\n",
            ),
            (
                "int main(void){int x={1/0,2};}",
                "",
                "tries 0\nstop division 1:23\n",
            ),
            (
                "int main(void){int x=1,y=x+1,z[2]={y,x};put(x,y,z[0],z[1]);}",
                "call 0\n",
                "call put(1,2,2,1) = 0\ntries 0\nended\n",
            ),
            (
                "int main(void){extern int x;put(x+0);}",
                "call 0\n",
                "tries 0\nstop unset 1:33\n",
            ),
            (
                "int main(void){const int x=1;x=2;put(x);}",
                "call 0\n",
                "call put(2) = 0\ntries 0\nended\n",
            ),
            (
                "int main(void){unsigned char x=300;put(x-301);}",
                "call 0\n",
                "call put(-1) = 0\ntries 0\nended\n",
            ),
            (
                "int main(void){if(0){int b[2]={1,2};}put(b[0]);}",
                "call 0\n",
                "tries 0\nstop index 1:42\n",
            ),
            (
                "int main(void){put(b[0]);int b[2]={1,2};}",
                "call 0\n",
                "tries 0\nstop index 1:20\n",
            ),
            (
                "int main(void){put(x);int x=1;}",
                "call 0\n",
                "tries 0\nstop unset 1:20\n",
            ),
        ],
    );
}

#[test]
fn at_file_scope(rt: HostRuntime) {
    all_told(
        &rt,
        rt.alloc(),
        PLAIN,
        &[
            (
                "int a=2;int b=a+1;int c[3]={b,a};int d;int main(void){put(a,b,c[0],c[1],c[2],d);}",
                "call 1\n",
                "call put(2,3,3,2,0,0) = 1\ntries 0\nended\n",
            ),
            (
                "int g=3;int t[]={1,2,g};int n;int b[4];int main(void){put(t[2]+n+b[3]);}",
                "call 0\n",
                "call put(3) = 0\ntries 0\nended\n",
            ),
            (
                "int a=b;int b=1;int main(void){}",
                "",
                "tries 0\nstop unset 1:7\n",
            ),
            (
                "int a=b;int b;int main(void){put(a);}",
                "call 0\n",
                "call put(0) = 0\ntries 0\nended\n",
            ),
            ("int x=x;int main(void){}", "", "tries 0\nstop unset 1:7\n"),
            (
                "int a=get(1);int b=get(2);int c=1/0;int main(void){put(a);}",
                "call 5\ncall 6\ncall 7\n",
                "call get(1) = 5\ncall get(2) = 6\ntries 0\nstop division 1:33\n",
            ),
            (
                "int a=get(1);int b=get(2);int main(void){put(a,b);}",
                "call 5\ncall 6\ncall 7\n",
                "call get(1) = 5\ncall get(2) = 6\ncall put(5,6) = 7\ntries 0\nended\n",
            ),
            (
                "int a=get(1);int b=get(2);int main(void){put(a,b);}",
                "call 5\n",
                "call get(1) = 5\ntries 0\nstop answers 1:20\n",
            ),
            (
                "int c[]={7,8};int main(void){put(c[1]);put(c[2]);}",
                "call 1\ncall 2\n",
                "call put(8) = 1\ntries 0\nstop index 1:44\n",
            ),
            (
                "int c[1]={7,1/0};int main(void){}",
                "",
                "tries 0\nstop form 1:13\n",
            ),
            (
                "char c[2]=\"a\";int main(void){}",
                "",
                "tries 0\nstop form 1:11\n",
            ),
            (
                "int c[65537];int main(void){}",
                "",
                "tries 0\nstop form 1:7\n",
            ),
            (
                "int c[65536];int main(void){c[65535]=4;put(c[65535],c[0]);}",
                "call 1\n",
                "call put(4,0) = 1\ntries 0\nended\n",
            ),
            (
                "int d[2]={d[1],5};int main(void){}",
                "",
                "tries 0\nstop unset 1:11\n",
            ),
            (
                "int d[3]={5,d[0]+1};int main(void){put(d[0],d[1],d[2]);}",
                "call 0\n",
                "call put(5,6,0) = 0\ntries 0\nended\n",
            ),
            (
                "int x=a[1];int a[2];int main(void){put(x);}",
                "call 0\n",
                "call put(0) = 0\ntries 0\nended\n",
            ),
            (
                "int x=a[1];int a[2]={4};int main(void){}",
                "",
                "tries 0\nstop unset 1:7\n",
            ),
            (
                "int x=a[1];int a[]={4,5};int main(void){}",
                "",
                "tries 0\nstop unset 1:7\n",
            ),
            (
                "int n=2;int x=a[1];int a[n];int main(void){}",
                "",
                "tries 0\nstop index 1:15\n",
            ),
            (
                "int n=3;int a[n];int main(void){put(a[2]);a[3]=1;}",
                "call 0\n",
                "call put(0) = 0\ntries 0\nstop index 1:43\n",
            ),
            (
                "int a[n];int n=3;int main(void){}",
                "",
                "tries 0\nstop unset 1:7\n",
            ),
            (
                "int a[n];int n;int main(void){put(a[0]);}",
                "call 0\n",
                "tries 0\nstop index 1:35\n",
            ),
            (
                "int a[k];int main(void){a[4]=1;}",
                "name k 4\n",
                "tries 0\nstop index 1:25\n",
            ),
            (
                "int x;int x;extern int x;int main(void){put(x);}",
                "call 0\n",
                "call put(0) = 0\ntries 0\nended\n",
            ),
            (
                "int x=1;extern int x;int main(void){put(x);}",
                "call 0\n",
                "call put(1) = 0\ntries 0\nended\n",
            ),
            (
                "static int x=1;const int y=2;int main(void){x=x+y;y=9;put(x,y);}",
                "call 0\n",
                "call put(3,9) = 0\ntries 0\nended\n",
            ),
            (
                "int x={1};int y={1,2};int main(void){}",
                "",
                "tries 0\nstop form 1:20\n",
            ),
            (
                "int a[];int a[3];int main(void){put(a[2]);}",
                "call 0\n",
                "call put(0) = 0\ntries 0\nended\n",
            ),
            (
                "int a=1;int f(int b){return a+b;}int c=2;int main(void){int d;d=f(c);put(d,a=7);d=f(0);put(d);}",
                "call 0\ncall 0\n",
                "call put(3,7) = 0\ncall put(7) = 0\ntries 0\nended\n",
            ),
        ],
    );
}

#[test]
fn what_is_handed_in(rt: HostRuntime) {
    all_told(
        &rt,
        rt.alloc(),
        PLAIN,
        &[
            (
                "int main(int argc,char **argv){put(argc);return argv;}",
                "name argc 3\ncall 1\n",
                "call put(3) = 1\ntries 0\nstop unset 1:49\n",
            ),
            (
                "int main(int argc,char **argv){put(argv[1]);}",
                "call 0\n",
                "tries 0\nstop unset 1:36\n",
            ),
            (
                "int main(int argc,char **argv){put(argv[1]);}",
                "name argv 7\ncall 0\n",
                "tries 0\nstop form 1:36\n",
            ),
            (
                "int main(int argc,char **argv){argc++;put(argc,argv);}",
                "name argc -1\nname argv 9223372036854775807\ncall 0\n",
                "call put(0,9223372036854775807) = 0\ntries 0\nended\n",
            ),
            (
                "int g;int main(void){int x;put(g);put(x+0);}",
                "name g 5\nname x 6\ncall 0\ncall 0\n",
                "call put(0) = 0\ntries 0\nstop unset 1:39\n",
            ),
            (
                "int g=g;int main(void){}",
                "name g 5\n",
                "tries 0\nstop unset 1:7\n",
            ),
            (
                "int f(int n){return n+k;}int main(void){int y;y=f(1);put(y,n,k);}",
                "name k 41\nname n 9\ncall 0\n",
                "call put(42,9,41) = 0\ntries 0\nended\n",
            ),
            (
                "int a=k;int b[k];int main(void){put(a,b[1]);}",
                "name k 2\ncall 0\n",
                "call put(2,0) = 0\ntries 0\nended\n",
            ),
            (
                "int get(void);int main(void){put(get,k,get+1);}",
                "name get 3\ncall 0\n",
                "call put(3,k,4) = 0\ntries 0\nended\n",
            ),
            (
                "int get(void);int main(void){put(get);put(1+get);}",
                "call 0\ncall 0\n",
                "call put(get) = 0\ntries 0\nstop unknown 1:45\n",
            ),
            (
                "int main(void){int x;x=k;k=x;}",
                "name k 2\n",
                "tries 0\nstop form 1:26\n",
            ),
            (
                "int main(void){k=get(1);}",
                "name k 2\ncall 3\n",
                "call get(1) = 3\ntries 0\nstop form 1:16\n",
            ),
        ],
    );
}
