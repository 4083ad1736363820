//! What each command is about, how it is called, and what stands behind its help.

pub const PROGRAM_NOTES: &str = "\
Lines come from standard input, or from the files that are named; answers go to standard output, one
for each line:

    $ echo '-OXXXXO-XXXXXXXXXXXXXXXXXXXXXXXXXXXXXXXXXXXXXXXXXXXXXXXXXXXXXXXX X' | othsolve solve
    +64 a1 h1

A board line has the 64 cells row by row from a1 (X a black disc, O a white disc, - an empty
square), a space, and the side to move. A line that can't be read is answered by its fault.

Statuses, and what is then on standard error:
    0  done; faults of lines don't change it without --strict
    1  run error 1: a read failed, or a FILE can't be opened; run error 2: a write failed
    2  the words can't be obeyed; run error 3: the workers aren't 1 to 16; run error 4: the cells are
       neither 0 nor a power of two up to 262144
    3  book error N, book wrong N: FILE is no book, or no true one (see book-verify --help);
       line I: book error N: an answer can't be added (see book-add --help)
    4  by --strict: done, and a line has a fault";

pub const SOLVE_ABOUT: &str = "Writes the score and all best moves of each board line";

pub const SOLVE_USAGE: &str = "othsolve solve [OPTIONS] [FILE]...";

pub const SOLVE_NOTES: &str = "\
Boards are read a line each, from standard input or from files: othsolve solve boards.txt

A board line, and its answer, the score for the side to move and all best moves:

    --OXOOO-OOOOOOOOOOOOOOOOOOOOOOOOOOOOOOOOOOOOOOOOOOOOOOOOOOOOOOOO X
    -50 h1

'pass' stands in place of the moves where the side to move has none and the other side has one,
'end' where the game is over.

Faults of a board line:
    error 1       the length is not 66 (a byte 13 before the end counts)
    error 2 at P  byte P, from 1 to 64, is not X, O or -
    error 3       byte 65 is not a space
    error 4       byte 66 is neither X nor O
    error 5 N     N squares are empty, more than 30";

pub const SCORES_ABOUT: &str = "Writes the score of every move of each board line";

pub const SCORES_USAGE: &str = "othsolve scores [OPTIONS] [FILE]...";

pub const SCORES_NOTES: &str = "\
Boards are read a line each, from standard input or from files: othsolve scores boards.txt

A board line, and its answer, every legal move behind its score for the side to move, the best first
and equal ones in the order a1, b1 .. h8:

    --OXOOO-OOOOOOOOOOOOOOOOOOOOOOOOOOOOOOOOOOOOOOOOOOOOOOOOOOOOOOOO X
    -50 h1 -64 b1

Where the side to move has no move, the answer and the faults are those of solve (see solve --help).";

pub const MOVES_ABOUT: &str = "Writes all legal moves of each board line";

pub const MOVES_USAGE: &str = "othsolve moves [OPTIONS] [FILE]...";

pub const MOVES_NOTES: &str = "\
Boards are read a line each, from standard input or from files: othsolve moves boards.txt

A board line, and its answer, all legal moves:

    ---------------------------OX------XO--------------------------- X
    d3 c4 f5 e6

'pass' stands in place of the moves where the side to move has none and the other side has one,
'end' where the game is over. The number of empty squares is not limited. A line that can't be read
is answered by 'error 1' to 'error 4', as in solve --help.";

pub const TRANSCRIPT_ABOUT: &str = "Writes the board line that each transcript leads to";

pub const TRANSCRIPT_USAGE: &str = "othsolve transcript [OPTIONS] [FILE]...";

pub const TRANSCRIPT_NOTES: &str = "\
Games are read a line each, from standard input or from files: othsolve transcript games.txt

A transcript is the names of the moves from the start of a game with nothing between them. Forced
passes are not written; they are put in. An empty line is the start. A transcript, and its answer:

    f5d6c3d3c4
    ------------------XO------XXX------OXX-----O-------------------- O

Faults of a transcript, whose pairs of bytes are counted from 1:
    error 1       the number of bytes is odd
    error 2 at K  pair K is no letter from a to h and digit from 1 to 8
    error 4 at K  the game is over before pair K
    error 3 at K  the move of pair K is illegal";

pub const PLAY_ABOUT: &str = "Writes the board line that the moves behind each board line lead to";

pub const PLAY_USAGE: &str = "othsolve play [OPTIONS] [FILE]...";

pub const PLAY_NOTES: &str = "\
Games are read a line each, from standard input or from files: othsolve play games.txt
A line is a board line, a space and the names of moves with nothing between them. A board line alone
has no moves. Forced passes are not written; they are put in, before the first move too. A line, and
its answer:
    ---------------------------OX------XO--------------------------- X f5d6c3d3c4
    ------------------XO------XXX------OXX-----O-------------------- O

'error 1' to 'error 4' are the faults of the board line, as in solve --help. Those of the moves, whose
pairs of bytes are counted from 1:
    error 21       the number of their bytes is odd
    error 22 at K  pair K is no letter from a to h and digit from 1 to 8
    error 24 at K  the game is over before pair K
    error 23 at K  the move of pair K is illegal";

pub const ANALYSE_ABOUT: &str = "Writes the last moves of each game beside the best ones";

pub const ANALYSE_USAGE: &str = "othsolve analyse [OPTIONS] [FILE]...";

pub const ANALYSE_NOTES: &str = "\
Games are read a line each, from standard input or from files: othsolve analyse games.txt
A line that begins with X, O or - is a board line, alone or with a space and moves, as in play; every
other line is a transcript.

    --OXOOO-OOOOOOOOOOOOOOOOOOOOOOOOOOOOOOOOOOOOOOOOOOOOOOOOOOOOOOOO X h1b1
    1 58 X h1 -50 -50 h1
    1 59 O pass +50 +50 pass
    1 59 X b1 -50 -50 b1
    1 lost X 0 O 0

The columns: the number of the line, that of the disc, who moves, the move, its score for that side,
the best score, and all best moves. A pass has the number of the next disc. The last line of a game
has the discs that each side lost by these moves. A fault stands behind the moves before it, by the
number of the line and the words of transcript or play (see transcript --help, play --help).";

pub const VERIFY_NOTES: &str = "\
Each entry is solved anew, by as many threads as there are processors, at most 16. Prints 'book ok N'
with the number of entries and ends with status 0, or ends with status 3 and one of these on standard
error:
    book error 1       the header
    book error 2 at K  line K behind the header is no entry and no end line
    book error 3 at K  the board of line K isn't above the one before
    book error 4       the count
    book error 5       cut short
    book error 6       bytes behind the end
    book error 7       no memory
    book wrong 1 at K  the bounds of entry K don't enclose the value
    book wrong 2 at K  its best moves are wrong
    book wrong 3 at K  it has more than 30 empty squares
    book wrong 4       no memory";

pub const ADD_NOTES: &str = "\
The board lines of standard input are solved by the scoring of the book. The new book goes to
standard output at the end of input, and FILE itself stays as it is. Never write onto FILE: in
'othsolve book-add my.book > my.book' the shell empties it before it is read. Do this:

    othsolve book-add my.book < boards.txt > new.book && mv new.book my.book

A book begins as the book of no boards, W for winner or D for discs:

    printf 'OBOOK2 W\\nEND 000000\\n' > my.book

On standard error:
    line I: error N       line I of the input, from 1, has this fault (see solve --help) and is
                          left out
    line I: book error N  the answer of line I is refused: 1 no memory, 2 the book is full. No book
                          is written, and the status is 3
    book error N, book wrong N: FILE is no book, or no true one (see book-verify --help)";
