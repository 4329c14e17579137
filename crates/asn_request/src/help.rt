//! What `--help` prints beneath the options. No line is longer than 80 characters.

/// Of the program.
pub static PROGRAM: &str = "\
Input: standard input has the text of a module. All commands except module,
types and example then read a line ==== and one message a line. With --module
the module is read from files, and standard input has messages only; each is
answered as it arrives. The module may be a published one (see flatten --help).
Output: one line for each message. A line that begins with ! is a refusal.
Standard error names, with file and line, what differs from the published type.

A published type may accept more than it should, such as a DEFAULT that is
written out: that part of a message is not looked at. Then check answers
`ok N, not looked at: PATH (WHAT)`; show, encode and convert say it on standard
error; the exit status is 4. --accept-wider answers as for any other message.
--strict refuses types that differ. --levels N reads a recursive type in which
the type is again N - 1 times, and refuses deeper messages.

Octets are lines of hexadecimal digits, two an octet; an empty line is an empty
message. Other forms (--in, --out):
  hex        hexadecimal digits with blanks, 0x in front of a word, and comments
             from # on; blank lines are skipped; 0x alone is an empty message
  hex-block  the same on several lines; a blank line ends a message (xxd -p)
  dump       as xxd, od -Ax -tx1, hexdump -C, Wireshark and tcpdump -x print, or
             an array of C; offsets have to count the octets, and a text column
             has to be that of its octets; a blank line ends a message
  base64     a line of Base64 (RFC 4648), with padding
  binary     the octets themselves: all of standard input, or of one file, is a
             message; refusals go to standard error
hex and hex-block refuse dumps with offsets. If a line begins with a word of
four digits or more without 0x, and its words differ in length, that is one.
--messages FILE.. reads the messages from files instead of standard input.
--split reads several messages from one text: each begins where the last ended.
Nothing is read after octets that are refused.

Refusals (--explain says more on standard error):
  ! hex                 not hexadecimal digits, two an octet
  ! dump                not a dump, or in doubt: the reason is on standard error
  ! base64              not Base64
  ! json                not JSON
  ! shape PATH          at PATH, JSON of another kind, or a key twice
  ! not of type         a number, a length or a character outside the type
  ! too long            the encoding has more than 268,435,455 octets
  ! cut short after N   the message ends too early, after N bits (OER: octets)
  ! octets left after N the message has N octets, and more octets follow
  ! refused at bit N: WORD (OER: octet N): no message has this bit here
    sealed              invalid content of an open type field or UTF8String
    default             a component with its default value is encoded
    length              a length that is not allowed, or not the shortest form
    extension           extension bits that are not allowed
    character           a character that the string type does not have
    padding             padding bits that are not 0
    number              a number or item that is not allowed, or not the
                        shortest form
  ! over budget: ..     the value takes more than --budget allows
  ! deeper than N levels  the value goes deeper than --levels; other refusals of
                        such a type end in: or deeper than N levels
  ! module ..           not a module; at N: after N octets
  ! no type NAME        the module has no type of this name
  ! skipped PATH        encode --newer would lose an addition at PATH
newer refuses by: ! refused, ! cut short, ! too many additions.

Limits: the types of a module come to at most 10,000,000, with references
followed; each type, and each item of an ENUMERATED, counts one, and each
identifier its octets. N of an option is at most 4294967295.

Exit status: 0 success; 1 a message or type was refused; 2 wrong arguments,
module or type name; 3 reading, writing or memory failed.
4 if a part of a message was not looked at, and none was refused.

Example:
  printf '%s\\n' 'M DEFINITIONS AUTOMATIC TAGS ::= BEGIN' \\
    'T ::= INTEGER (0..7)' END ==== a0 |
    asn_tool show --type T --rules per
prints 5.";

/// Of `flatten`.
pub static FLATTEN: &str = "\
Input: published modules, which may have IMPORTS, object identifiers, values,
named numbers and bits, groups in [[ ]], contents, classes and parameters.
Output: one module in the notation that the other commands read. Standard error
has first the imports of modules that are not given, then how many types are
the same, not the same (narrower, wider, owed, per only) and refused. --report
text has a line for each remark, FILE:LINE: TYPE: STATUS: REMARK; --report json
one line for each type.
  same      the encodings are those of the published type
  narrower  some of its encodings are refused: numbers of more than 64 bits
  wider     other encodings are accepted too; of a recursive type those deeper
            than --levels are refused
  owed      the same if the writer keeps a rule that this type does not have
  per only  the same in PER, others in OER
The module that is written does not say this: other commands know it only from
the published modules themselves.
With --type only that type is written, with those that it refers to, or alone
if these come to more than the limit (asn_tool --help).

Exit status: 0 success; 1 a type was refused; 2 a text is not ASN.1 (standard
error has file and line) or no type has the name; 3 reading, writing or memory
failed.

Example:
  echo 'M DEFINITIONS AUTOMATIC TAGS ::= BEGIN
    n INTEGER ::= 7 T ::= INTEGER (0..n) END' >m.asn
  asn_tool flatten m.asn
prints
  M DEFINITIONS AUTOMATIC TAGS ::= BEGIN
  T ::= INTEGER ( 0 .. 7 )
  END";

/// Of `module`.
pub static MODULE: &str = "\
Input: the text of a module. Lines after a line ==== are ignored. With --module
standard input is not read.
Output: the module, one line for each assignment, with references followed and
effective bounds. With --explain standard error shows where a text is refused:
the line, a mark under it, and what could be there.

Exit status: 0 success; 2 the module was refused; 3 reading, writing or memory
failed.

Example:
  echo 'M DEFINITIONS AUTOMATIC TAGS ::= BEGIN
    T ::= SEQUENCE OF U U ::= BOOLEAN END' | asn_tool module
prints
  M DEFINITIONS AUTOMATIC TAGS ::= BEGIN
  T ::= SEQUENCE OF BOOLEAN
  U ::= BOOLEAN
  END";

/// Of `show`.
pub static SHOW: &str = "\
Input: the text of a module, a line ====, and one message a line in hexadecimal.
Output: for each message its value as JSON, or a refusal. `asn_tool --help`
lists the refusals.
--budget N refuses a message whose value takes more than N entries, or N octets
of strings. Entries are the value, each component (absent or not), each element
and each alternative; octets are the octets, characters or bits of strings.

Exit status: 0 every message was shown; 1 a message was refused; 2 the module
was refused or has no type of this name; 3 reading, writing or memory failed.
4 if a part of a message was not looked at, and none was refused.

Example:
  printf '%s\\n' 'M DEFINITIONS AUTOMATIC TAGS ::= BEGIN' \\
    'T ::= SEQUENCE { id INTEGER (0..7) }' END ==== a0 |
    asn_tool show --type T --rules per
prints {\"id\":5}. For a1 instead of a0, with --explain, it prints
  ! refused at bit 8: padding
and on standard error
  line 1: in $, SEQUENCE: padding bits must be 0

Members of objects are in alphabetical order, with --order declared in that of
the type. A file of messages one after the other, with the same module in m.asn:
  printf '\\240\\100' >messages
  asn_tool show --type T --rules per --module m.asn --messages messages \\
    --in binary --split
prints {\"id\":5} and {\"id\":2}.";

/// Of `check`.
pub static CHECK: &str = "\
Input: the text of a module, a line ====, and one message a line in hexadecimal.
Output: for each message `ok` and its number of octets, or a refusal.
`asn_tool --help` lists the refusals.
--budget N refuses a message whose value takes more than N entries, or N octets
of strings. Entries are the value, each component (absent or not), each element
and each alternative; octets are the octets, characters or bits of strings.

Exit status: 0 every message is an encoding; 1 a message was refused; 2 the
module was refused or has no type of this name; 3 reading, writing or memory
failed.
4 if a part of a message was not looked at, and none was refused.

Example:
  printf '%s\\n' 'M DEFINITIONS AUTOMATIC TAGS ::= BEGIN' \\
    'T ::= INTEGER (0..7)' END ==== a0 a1 |
    asn_tool check --type T --rules per
prints `ok 1` and `! refused at bit 8: padding`.

With blanks, 0x and a comment, with the same module in m.asn:
  echo '0xa0  # the number 5' |
    asn_tool check --type T --rules per --module m.asn --in hex
prints `ok 1`. --stats prints at the end, on standard error, how many octets the
messages have, how many messages each alternative of a CHOICE has, and how many
were refused for each reason: `octets: 1`, `alternative cam: 12`,
`refused padding: 1`. On a terminal it shows how many messages are done so far.";

/// Of `encode`.
pub static ENCODE: &str = "\
Input: the text of a module, a line ====, and one value a line as JSON.
Output: for each value its octets in hexadecimal, or a refusal.
`asn_tool --help` lists the refusals.
A value may have 1,000,000 entries unless --budget N says otherwise. Entries are
the value, each component (absent or not), each element and each alternative.

Exit status: 0 every value was encoded; 1 a value was refused; 2 the module was
refused or has no type of this name; 3 reading, writing or memory failed.
4 if a part of a message was not looked at, and none was refused.

Example:
  printf '%s\\n' 'M DEFINITIONS AUTOMATIC TAGS ::= BEGIN' \\
    'T ::= SEQUENCE { id INTEGER (0..7) }' END ==== '{\"id\":5}' |
    asn_tool encode --type T --rules per
prints a0.

As octets, with the same module in m.asn:
  echo '{\"id\":5}' |
    asn_tool encode --type T --rules per --module m.asn --out binary >message
writes a file of one octet.

With --newer the lines are those of `newer --json`. A value is encoded if
nothing was skipped in it; otherwise it is refused, since its additions would be
lost.
Members other than value and skipped are ignored:
  asn_tool encode --type T --rules per --module m.asn --newer <lines
prints a0 for {\"value\":{\"id\":5},\"skipped\":[]}.";

/// Of `convert`.
pub static CONVERT: &str = "\
Input: the text of a module, a line ====, and one message a line in hexadecimal,
in the encoding rules of --rules.
Output: for each message the octets of the same value in the other encoding
rules, in hexadecimal, or a refusal. `asn_tool --help` lists the refusals.
--budget N refuses a message whose value takes more than N entries, or N octets
of strings. Entries are the value, each component (absent or not), each element
and each alternative; octets are the octets, characters or bits of strings.

Exit status: 0 every message was converted; 1 a message was refused; 2 the
module was refused or has no type of this name; 3 reading, writing or memory
failed.
4 if a part of a message was not looked at, and none was refused.

Example:
  printf '%s\\n' 'M DEFINITIONS AUTOMATIC TAGS ::= BEGIN' \\
    'T ::= SEQUENCE { id INTEGER (0..7) }' END ==== a0 |
    asn_tool convert --type T --rules per
prints 05.

In Base64, with the same module in m.asn:
  echo oA== | asn_tool convert --type T --rules per --module m.asn \\
    --in base64 --out base64
prints BQ==.";

/// Of `newer`.
pub static NEWER: &str = "\
Input: the text of a module, a line ====, and one message a line in hexadecimal,
from senders whose types have more or fewer extension additions.
Output: for each message its value as JSON, without the additions that the
module does not have. For each of those follow a space, +, its index among the
additions of its type, from 0, a colon and its octets in hexadecimal. Or a
refusal; `asn_tool --help` lists them.

Exit status: 0 every message was shown; 1 a message was refused; 2 the module
was refused or has no type of this name; 3 reading, writing or memory failed.

Example:
  printf '%s\\n' 'M DEFINITIONS AUTOMATIC TAGS ::= BEGIN' \\
    'T ::= SEQUENCE { a BOOLEAN, ... }' END ==== c04041c0 |
    asn_tool newer --type T --rules per
prints {\"a\":true} +0:07.

With --json each line is an object: the value, and for each addition that was
skipped the path to its SEQUENCE or CHOICE, its index, and its octets. For the
same line, newer --type T --rules per --json prints
  {\"value\":{\"a\":true},\"skipped\":[{\"path\":\"$\",\"addition\":0,\"octets\":\"07\"}]}
`encode --newer` encodes such lines if nothing was skipped.";

/// Of `fields`.
pub static FIELDS: &str = "\
Input: the text of a module, a line ====, and one message a line in hexadecimal.
Output: for each message one line for each field. It has the first and last bit
(OER: octet), counted from 1, and the octets. In PER it has the bits if the
field is in one or two octets. Then come the path, the type and the value. Other
fields have the words of X.691 and X.696: presence bitmap, length determinant,
padding. An absent component has a hyphen, and its DEFAULT. Octets that are no
message are shown up to the refused bit, and the last line is the refusal. An
empty line separates messages.
--html prints one page without scripts: the bits of each message in colours, and
the lines of its fields in the same colours.
A message may have 100,000 fields unless --budget N says otherwise.

Exit status: 0 every message is an encoding; 1 a message was refused; 2 the
module was refused or has no type of this name; 3 reading, writing or memory
failed.

Example:
  printf '%s\\n' 'M DEFINITIONS AUTOMATIC TAGS ::= BEGIN' \\
    'T ::= SEQUENCE { id INTEGER (0..7) }' END ==== a0 |
    asn_tool fields --type T --rules per
prints a line for `id` (bits 1-3, octet A0, bits 101, value 5) and one for the
padding (bits 4-8).

A page of the message of a file, with the same module in m.asn:
  asn_tool fields --type T --rules per --module m.asn --messages m.bin \\
    --in binary --html >m.html";

/// Of `types`.
pub static TYPES: &str = "\
Input: the text of a module. Lines after a line ==== are ignored. With --module
standard input is not read.
Output: the names of its types, one a line, in order. With NAME that type: one
line for each part, with its type and the least and the greatest size of its
values, in PER in bits and in OER in octets. A size without a greatest number,
or with one past 2^64, has none; a least one past 2^64 is printed as 2^64 - 1.
The last line has the least and the greatest size of a message in PER, in
octets.

Exit status: 0 success; 1 types of published modules were left out of the names;
2 the module was refused or has no type of this name; 3 reading, writing or
memory failed.

Example:
  echo 'M DEFINITIONS AUTOMATIC TAGS ::= BEGIN
    T ::= SEQUENCE OF U U ::= BOOLEAN END' | asn_tool types
prints
  T
  U
and `asn_tool types T --module m.asn`, with the same module in m.asn, prints
that T has 8 or more bits in PER and 2 or more octets in OER.";

/// Of `example`.
pub static EXAMPLE: &str = "\
Input: the text of a module. Lines after a line ==== are ignored. With --module
standard input is not read.
Output: a value of the type as JSON, a line that `encode` reads: the least value
of each part, without OPTIONAL components. --seed N gives another value, always
the same for the same N: for 0 the greatest of each part, with all components.
--count N gives N values, one a line, of the seed and the numbers after it, from
0 without a seed.
A value may have 1,000,000 components, elements and items of strings, all
together, unless --budget N says otherwise.

Exit status: 0 success; 1 a value has too many parts; 2 the module was refused
or has no type of this name; 3 reading, writing or memory failed.

Example:
  echo 'M DEFINITIONS AUTOMATIC TAGS ::= BEGIN
    T ::= SEQUENCE { id INTEGER (3..7) } END' | asn_tool example --type T
prints {\"id\":3}.

Messages for a test, with the same module in m.asn:
  asn_tool example --type T --module m.asn --count 1000 |
    asn_tool encode --type T --rules per --module m.asn";
