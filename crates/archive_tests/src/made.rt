// Archives that ar wrote.

/// `ar rcD` of GNU binutils 2.40: an object with a global symbol, so that a symbol index stands first, and two texts. Two names
/// stand in the table of long names.
pub(crate) const GNU: &[u8] = b"\
!<arch>\n\
/               0           0     0     0       10        `\n\
\0\0\0\x01\0\0\0\xc8f\0//                                              62        `\n\
an_object_with_a_long_name.o/\n\
a_member_with_a_long_name.txt/\n\
\n\
/0              0           0     0     644     400       `\n\
\x7fELF\x02\x01\x01\0\0\0\0\0\0\0\0\0\x01\0>\0\x01\0\0\0\0\0\0\0\0\0\0\0\0\0\0\0\0\0\0\0\x90\0\0\0\0\0\0\0\0\0\
\0\0@\0\0\0\0\0@\0\x04\0\x03\0\0\0\0\0\0\0\0\0\0\0\0\0\0\0\0\0\0\0\0\0\0\0\0\0\x01\0\0\0\x10\0\xf1\xff\x01\0\0\
\0\0\0\0\0\0\0\0\0\0\0\0\0\0f\0\0.symtab\0.strtab\0.shstrtab\0\0\0\0\0\0\0\0\0\0\0\0\0\0\0\0\0\0\0\0\0\0\0\0\0\
\0\0\0\0\0\0\0\0\0\0\0\0\0\0\0\0\0\0\0\0\0\0\0\0\0\0\0\0\0\0\0\0\0\0\0\0\0\0\0\0\0\0\x01\0\0\0\x02\0\0\0\0\0\0\
\0\0\0\0\0\0\0\0\0\0\0\0\0@\0\0\0\0\0\0\00\0\0\0\0\0\0\0\x02\0\0\0\x01\0\0\0\x08\0\0\0\0\0\0\0\x18\0\0\0\0\0\0\
\0\x09\0\0\0\x03\0\0\0\0\0\0\0\0\0\0\0\0\0\0\0\0\0\0\0p\0\0\0\0\0\0\0\x03\0\0\0\0\0\0\0\0\0\0\0\0\0\0\0\x01\0\0\
\0\0\0\0\0\0\0\0\0\0\0\0\0\x11\0\0\0\x03\0\0\0\0\0\0\0\0\0\0\0\0\0\0\0\0\0\0\0s\0\0\0\0\0\0\0\x1b\0\0\0\0\0\0\0\
\0\0\0\0\0\0\0\0\x01\0\0\0\0\0\0\0\0\0\0\0\0\0\0\0a.txt/          0           0     0     644     3         `\n\
one\n\
/30             0           0     0     644     4         `\n\
four";

/// `llvm-ar --format=darwin rcD` of LLVM 14: a symbol index and two texts, each with its name before its bytes.
pub(crate) const BSD: &[u8] = b"\
!<arch>\n\
#1/12           0           0     0     0       20        `\n\
__.SYMDEF\0\0\0\0\0\0\0\0\0\0\0#1/12           0           0     0     644     20        `\n\
a.txt\0\0\0\0\0\0\0one\n\
\n\
\n\
\n\
\n\
#1/28           0           0     0     644     36        `\n\
a_longer_name_than_16.txt\0\0\0hello\n\
\n\
\n";

/// `ar rcTD` of GNU binutils 2.40: a thin archive of one text.
pub(crate) const THIN: &[u8] = b"\
!<thin>\n\
//                                              8         `\n\
a.txt/\n\
\n\
/0              0           0     0     644     3         `\n";
