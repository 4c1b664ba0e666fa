//! A program, what is asked of a debugger of it, and what it answers.

/// A request that is pending, completed by its cancel's own code at once, and the stop of the run.
pub const CANCELS: &str = "\
image cells 1 budget 60 root A\n\
class A active self budget 20\n\
method k cancel of A\n\
abort\n\
ret\n\
end\n\
method d destruct of A\n\
cancel\n\
ret\n\
end\n\
method r run of A\n\
status r0\n\
print r0\n\
stop\n\
ret\n\
end\n\
method n construct of A\n\
enlist 0\n\
const r0 -2147483647\n\
issue r0 r0\n\
setactive\n\
ret\n\
end\n\
method main main leaves\n\
newl r0 A\n\
push r0\n\
call c0 n\n\
pop r0\n\
put f0 r0\n\
ret\n\
end\n\
";

/// What is asked.
pub const CANCELS_ASKED: &str = "\
turn\n\
actives\n\
owners\n\
break 2 2\n\
go\n\
go\n\
cells\n\
go\n\
";

/// What is told.
pub const CANCELS_REPORTED: &str = "\
@0 main\n\
between 1\n\
0 0 active -2\n\
root 0\n\
ok\n\
@1 run 0 -2\n\
out -2\n\
at 2 2\n\
gone 0\n\
end stopped cells 0\n\
ended\n\
cells 0\n\
fault 3\n\
";
