// Trees that `tools/drawn_trees.py` drew, with what the slow walk says of them.

pub const TREES: &str = "\
# seed 0
/ ok
tree / /b/ /b/c/ /a@ /b/b/ /b/c/b /b/c/c /b/b/a /c /b/b/c@ /b/a/ /b/c/a/
refused /b/c/c/c
settles r /b/b/a, r /b/c, r /b/b/a, n /b/b/a/b, r /b/b/a/c/b owned /b/c /b/b/a /b/c/a guards /b/b absent
roots n /a/a/b, r /b/c/a, r /b/b
steps 12
settles r /b/a/a owned guards /b/a absent /b/a/a
settles r /c/a/b, n /b/b/a, n /b/b/a owned /b/b/a guards / absent
roots r /b/c/b/b, n /b/c/b
steps 7
settles n /b/c/c, r /b/c/c, r /a/c, r /a, r /a owned /b/c/c guards / absent
# seed 1
/ ok
tree / /c@ /b/ /b/c/ /b/c/a/ /b/c/a/c/ /b/a/ /b/c/c/ /a/ /b/c/a/c/b/ /b/a/a/ /b/c/a/a/ /b/c/a/a/b/ /b/a/a/b/ /b/a/a/c /b/c/c/a/ /b/c/a/b /b/c/c/b/ /b/c/c/a/b/ /b/c/a/a/a/
refused /b/c/c/c
refused /c
refused /a
settles none owned guards absent
roots r /b/c, r /b/a/a/b, n /b/c/a/a/b
steps 15
settles n /b/c/a/c, n /b/c/c/a, r /b/c/a/c/b/c, r /b/c/c/a/b/c/c owned /b/c/a/c /b/c/c/a guards /b/c/a/c/b /b/c/c/a/b absent /b/c/a/c/b/c /b/c/c/a/b/c/c
settles r /b/c/c owned /b/c/c /b/c/c/a /b/c/c/b /b/c/c/a/b guards absent
roots none
steps 28
settles n /b/c/c/b owned /b/c/c/b guards absent
# seed 2
/ ok
refused /c/a
refused /
refused /
settles r /, n /, r / owned guards absent / / /
roots r /, n /b, r /
steps 15
settles r / owned guards absent /
settles r /, r /b, r /b/c, r / owned guards absent / /b /b/c /
roots n /, r /, r /, n /
steps 14
settles n /, r / owned guards absent / /
# seed 3
/ ok
tree / /a/ /c/ /c/a/ /c/a/b/ /b /c/a/b/a /c/a/b/c/
refused /c/b
refused /c/a/b
refused /c/a
settles r /c/a/c, r /c/a/b/b owned guards /c/a /c/a/b absent /c/a/c /c/a/b/b
roots r /c/a/b/a, r /a/b/b, r /c/a, n /c/a/b/c
steps 24
settles none owned guards absent
settles r /c/b, n /c/a/b/a/a/b, n /c/a, r /a, r /a owned /a /c/a guards /c /c/a/b absent /c/b
roots r /, r /b, n /c/a/a, r /a, n /a
steps 20
settles n /c/a/b/a owned /c/a/b/a guards absent
# seed 4
/ ok
tree / /b/ /b/c/ /b/c/b /b/c/c/
settles n /b/c, r /b/c/a owned /b/c guards /b/c absent /b/c/a
roots r /b/c, r /b/c, r /
steps 11
settles r /b, r /b/c/b owned /b /b/c /b/c/b /b/c/c guards absent
settles n /b/c, n /b/c/b/b, r /b/c/c owned /b/c /b/c/c guards /b/c absent
roots r /b/c/b
steps 5
settles r /b/c, r / owned / /b /b/c /b/c/c guards absent
# seed 5
/ ok
tree / /c /a@ /b/ /b/c/ /b/c/c/ /b/c/b/ /b/c/c/c /b/c/c/a@ /b/c/b/a/ /b/c/b/a/a/ /b/b /b/c/b/a/a/b /b/c/a@ /b/c/b/c@ /b/a@ /b/c/b/a/b/ /b/c/b/a/b/a
refused /b/b
refused /a
settles r /b/c/b/a/a, r /b/c/b/a/a/b owned /b/c/b/a/a /b/c/b/a/a/b guards absent
roots r /b/c/a, n /b/c/b/c, r /b/c/b/c/c/a, r /b/c/a/b
steps 19
settles r /b/c/b/a/b/a/b owned guards /b/c/b/a/b absent
settles none owned guards absent
roots n /c/b, r /b/c/c/c, n /b/c/b/a/a/b/c/b, r /b/c/c/a/a, n /b/c/b/a/a
steps 14
settles r /c, r /c, r /b/c/b/a/b owned /c /b/c/b/a/b guards absent
# seed 6
/ ok
tree / /c/ /c/c/ /c/c/a/ /c/c/b/ /a/ /c/a/ /c/c/a/c/ /c/c/a/c/c/ /c/c/a/c/c/c@ /a/a/ /c/a/c /a/c/ /c/c/a/b/ /c/c/a/b/a/ /c/c/a/c/b@ /c/c/b/c /a/a/c/ /a/a/c/a@ /a/a/b/ /c/a/b /c/c/a/b/b /a/a/a/ /c/c/a/c/c/b/
refused /c/c/a/c/c/c
refused /c/c/a/c/b/b/a
settles none owned guards absent
roots r /a/a/b/b/a, r /c/c/a/c/c, r /c/c/a/c/b, n /a/a
steps 6
settles n /, r /a/a/c/a, n /a/a/a, r /c/c, n /c/c/a/c/b owned / /c/c /c/c/a /c/c/b /c/c/a/c /c/c/a/c/c /c/c/a/b /c/c/a/b/a /a/a/a /c/c/a/c/c/b guards /c/c/a/c /a/a/c absent
settles r /c/c/b/c/c, r /c, r /c/a/c, r /c/c/a/c/c/a owned /c /c/c /c/c/a /c/c/b /c/a /c/c/a/c /c/c/a/c/c /c/a/c /c/c/a/b /c/c/a/b/a /c/c/a/c/c/b guards /c/c/b /c/c/a/c/c absent /c/c/a/c/c/a
roots r /c/c/b/c, r /c/a/b, r /c/c/a/b, n /c, r /a/a/c
steps 5
settles r /a/a, n /a/a/c, r /a/a, r /a/a/c/a owned /a/a /a/a/c /a/a/b /a/a/a guards /a/a/c absent
# seed 7
/ ok
tree / /c /b/ /a /b/b /b/a/
refused /c/a/c
settles n /a owned /a guards absent
roots r /b, r /b/a, r /a
steps 15
settles r / owned / /b /b/a guards absent
settles r /a, r /c/a, n /b/a/c owned /a guards / /b/a absent /b/a/c
roots r /b/a, r /a, r /b/b/c, n /b, r /b/b
steps 9
settles none owned guards absent
# seed 8
/ ok
tree / /a/ /b /a/a/ /a/a/b/ /a/a/b/a/
refused /a/a
refused /a/a
refused /a/a/b/a
settles none owned guards absent
roots n /a/c/c
steps 5
settles none owned guards absent
settles r /a/a/b, n /, r /a/a/b owned / /a/a/b guards absent
roots r /b, r /, r /a, n /a/a/b/b, r /b
steps 9
settles r /b/a, r /b/c, r /a/a/b owned /a/a/b guards / absent
# seed 9
/ ok
tree / /c/ /c/b/ /c/c/ /c/b/a/ /c/b/a/a/ /c/c/a/ /c/b/a/a/b@ /c/c/a/b/ /c/b/a/c /c/b/a/a/c /c/b/a/b/ /c/c/b@ /c/c/a/b/c@ /a /c/a/ /c/b/a/b/a/ /c/c/c/
settles r /c/b/a, r /c/b/a/a/c, r /c/b/a/a/c/b, r /c/c/a/b/b/c owned /c/b/a /c/b/a/a /c/b/a/a/c /c/b/a/b /c/b/a/b/a guards /c/b/a/a /c/c/a/b absent /c/c/a/b/b/c
roots r /c/c, r /c/b, r /c/c/c/c
steps 24
settles n /c/c/a/b/c, n /c/c/a/b/c, r /c/a, r /c/b/a/b/a owned /c/a /c/b/a/b/a guards /c/c/a/b absent
settles none owned guards absent
roots r /c/b/a, r /c/b/a/a/b, n /c/c
steps 14
settles r /c/b/a/c/a owned guards /c/b/a absent
# seed 10
/ ok
tree / /c/ /b/ /b/a/ /a@ /c/a/ /c/a/b/ /c/b/ /c/a/a /c/a/c/ /c/a/c/b/ /b/a/b/ /b/a/b/c/ /b/a/b/c/c/ /b/a/b/c/c/a@ /c/b/a/ /c/b/a/b/ /c/c /c/a/c/b/c@ /b/a/a/ /c/b/b@ /c/b/a/b/b/ /b/a/b/c/a/ /c/a/b/b/ /c/b/a/b/b/c /b/c/ /c/a/b/c/ /c/a/b/b/c/ /c/a/b/a/
refused /c/a/b/b/c/a/a
refused /c/b
refused /b/a/a
settles r /c/a/b/a owned /c/a/b/a guards absent
roots r /c/b/b, r /c/a/b/c/c
steps 16
settles none owned guards absent
settles n /c/b/a, r /c/a/c/b, r /, r /c/a/c/b/c owned / /c /b /b/a /c/a /c/a/b /c/a/c /c/a/c/b /b/a/b /b/a/b/c /b/a/b/c/c /c/b/a /b/a/b/c/a /c/a/b/b /b/c /c/a/b/c /c/a/b/b/c /c/a/b/a guards /c/a/c/b absent
roots r /c/a/b, r /c/b/a, r /b/c, n /c/b/a/b/b
steps 13
settles n /b/a/b/c, r /b/a/b, r /c/c owned /b/a/b /b/a/b/c /b/a/b/c/c /c/c /b/a/b/c/a guards absent
# seed 11
/ ok
tree / /a/ /c /a/c/ /a/c/c/ /a/c/c/a/ /a/b /a/c/b /a/c/a/ /a/c/a/c/ /b/ /b/b@ /a/c/a/a/ /b/a/ /a/c/a/c/c/ /a/c/a/c/b/ /a/c/a/c/b/c/ /a/c/c/a/b/ /a/c/a/c/c/a/ /a/c/a/c/c/c/ /a/c/a/c/c/b@ /a/c/a/c/c/a/c/
refused /a/c/a/c/b/c
refused /b/b/c/c
refused /a/c/a/c/c/a/c/a/b
refused /b/a/b
settles none owned guards absent
roots none
steps 29
settles none owned guards absent
settles none owned guards absent
roots r /a/c/a/c/c/b
steps 1
settles n /a/c/c/a/b, r /a/c/a/c/c/a/b, r /a/c/a/c/c/a, r /a/b, r /b owned /a/b /b /b/a /a/c/c/a/b /a/c/a/c/c/a /a/c/a/c/c/a/c guards /a/c/a/c/c/a absent /a/c/a/c/c/a/b
# seed 12
/ ok
tree / /c/ /c/b@ /c/c/ /c/c/c /c/a/ /b /c/c/a /c/c/b/ /c/a/b@ /c/a/a/ /c/c/b/a/ /a/ /c/a/a/b/ /c/c/b/a/c/ /c/a/a/b/c/ /c/a/a/b/c/c/ /c/c/b/c /c/c/b/b/ /c/c/b/a/a /c/c/b/b/b
refused /c/c/a
refused /c/b
refused /c/b
refused /c/c/b/a/a/c
settles r /c/c/b/b owned /c/c/b/b guards absent
roots r /c/c/c, n /c/a/a/b/c, n /c/a/a/b/c
steps 12
settles r /c/a/a, n /a/b owned /c/a/a /c/a/a/b /c/a/a/b/c /c/a/a/b/c/c guards /a absent /a/b
settles r /a, n /c/a/b/b, r /c/a/a/b/c owned /a /c/a/a/b/c /c/a/a/b/c/c guards /c/a absent
roots n /c/c/b/a, n /c/c/b/a/a/b/b, r /c/a/a, r /c/a/a/b/c, n /
steps 22
settles r /c/c/b/b owned /c/c/b/b guards absent
# seed 13
/ ok
tree / /a /c/ /c/b/ /c/b/a/ /c/b/a/a@ /c/a /c/b/b@ /c/b/c/ /c/b/a/c/ /c/b/c/b/ /c/b/c/b/b /c/c/ /b/ /c/c/a/ /c/c/c/ /c/c/b@ /c/b/a/c/a/ /c/b/c/c/ /c/b/a/c/b/
settles r /c/b/a/c, n /c/b/a/a, r /c/c/b, r /c/c, r /c/b/a/c/b owned /c/b/a/c /c/c /c/c/a /c/c/c /c/b/a/c/a /c/b/a/c/b guards /c/b/a /c/c absent
roots r /c/b/a/c, r /c/b/a/c/b
steps 10
settles r /c/c, r /c/b/a/c/b owned /c/c /c/c/a /c/c/c /c/b/a/c/b guards absent
settles none owned guards absent
roots r /c/c/c, r /c/b/a/c, n /c/c/b/b
steps 3
settles none owned guards absent
# seed 14
/ ok
tree / /c /a/ /a/a /a/c /b /a/b/ /a/b/b/ /a/b/b/b/ /a/b/b/b/b/ /a/b/b/b/c/ /a/b/b/b/b/b/ /a/b/b/b/c/b/ /a/b/a /a/b/b/b/b/b/c /a/b/b/b/a/ /a/b/b/c/ /a/b/b/b/b/b/a/ /a/b/b/b/a/a@ /a/b/b/c/a/ /a/b/b/b/b/a /a/b/b/b/b/b/a/c/ /a/b/b/c/b/ /a/b/b/b/b/b/b/ /a/b/b/c/b/b/ /a/b/b/c/c /a/b/b/c/b/c@ /a/b/b/a /a/b/b/b/b/b/b/b/ /a/b/b/b/b/b/a/c/c/
settles r /a/b/b/b/b/b/a/c, r /a/a/c/c owned /a/b/b/b/b/b/a/c /a/b/b/b/b/b/a/c/c guards /a absent
roots r /a/b/b/c/b/c/c/c
steps 29
settles r /a/b/b/a/c, n /a/b/b/b/b/a, r /a/b/b/b/c/b/a/b owned /a/b/b/b/b/a guards /a/b/b /a/b/b/b/c/b absent /a/b/b/b/c/b/a/b
settles r /a/b/b/b/b/b/a/c, n /a/b/b/c/c, r /a/b/b/b/a/b/c owned /a/b/b/b/b/b/a/c /a/b/b/c/c /a/b/b/b/b/b/a/c/c guards /a/b/b/b/a absent /a/b/b/b/a/b/c
roots none
steps 19
settles none owned guards absent
# seed 15
/ ok
tree / /c/ /c/c/ /b/ /b/b/ /c/a@ /a/ /a/c/ /b/c/ /b/c/c@ /a/c/a /c/c/a/ /c/c/a/b/ /c/c/b/ /b/b/b/
refused /c/b/c
refused /b/b/a
refused /c/c/a/a
settles r /c/c/a, r /c/c/a, r /c owned /c /c/c /c/c/a /c/c/a/b /c/c/b guards absent
roots r /, r /a/c/a/c/a, r /b/b, r /a
steps 21
settles n /c/c/b/c, r /b/c/c, r /c, r / owned / /c /c/c /b /b/b /a /a/c /b/c /c/c/a /c/c/a/b /c/c/b /b/b/b guards /b/c /c/c/b absent /c/c/b/c
settles r /c/c/a, n /a/c/c, r /c/c/b owned /c/c/a /c/c/a/b /c/c/b guards /a/c absent /a/c/c
roots r /a
steps 24
settles r /c/c/a/b/c, n /b/b, n /b/b/b, r /a/c/b owned /b/b /b/b/b guards /a/c /c/c/a/b absent /c/c/a/b/c /a/c/b
# seed 16
/ ok
tree / /c/ /c/a /b/ /a/ /a/b /c/b/ /b/b /c/c/ /b/c/ /a/a/ /b/c/c/ /b/c/c/c/ /b/c/c/c/c/ /b/c/c/c/a/ /b/c/c/c/c/a /c/b/b/ /c/c/a/ /c/c/c/ /b/c/c/c/c/b/
refused /c/c/c
refused /c/b/b/a/c
refused /b/c/c/c/c
refused /b/c/c/c/a
settles n /a/a owned /a/a guards absent
roots r /b/c/c/c, n /b/b
steps 28
settles r /c/a/a, r /b/c/c/c/b/b, n /b/c owned /b/c guards /c /b/c/c/c absent /b/c/c/c/b/b
settles r /b/c/c/c/c/b/c, r /a/b, r /c/c/a owned /a/b /c/c/a guards /b/c/c/c/c/b absent /b/c/c/c/c/b/c
roots r /b/c
steps 14
settles n /c, r /b/c/c/c/c/a/a owned /c guards /b/c/c/c/c absent
# seed 17
/ ok
tree /
refused /
settles r / owned / guards absent
roots r /, n /, r /c/c, n /a
steps 27
settles n / owned / guards absent
settles r /, r /, r /, r /, r /c/b owned / guards / absent /c/b
roots r /a/b, r /a, n /b/c, r /
steps 8
settles r /b owned guards / absent /b
# seed 18
/ ok
tree / /c/ /b/ /a /c/c/ /b/c/ /c/c/c/ /c/c/b /c/c/c/a/ /b/c/b/ /b/c/a /c/b/ /c/b/b /b/a /c/c/c/a/b/ /c/c/c/a/a/ /c/c/c/a/a/a/ /c/a/ /c/c/c/a/a/a/b/ /c/a/a/ /b/c/b/b/ /c/c/c/a/c/ /b/c/b/b/b/ /c/c/c/a/a/a/b/a/ /b/c/c/ /c/c/c/c /c/c/c/a/b/a/
settles r /c/c/c/a, r /b/c, r /b/c, r /c/c/c/a/c, r /c/b owned /b/c /c/c/c/a /b/c/b /c/b /c/c/c/a/b /c/c/c/a/a /c/c/c/a/a/a /c/c/c/a/a/a/b /b/c/b/b /c/c/c/a/c /b/c/b/b/b /c/c/c/a/a/a/b/a /b/c/c /c/c/c/a/b/a guards absent
roots r /a/a, r /c/c/c/a/b/a
steps 17
settles none owned guards absent
settles none owned guards absent
roots n /c/c/c/a/b/c
steps 3
settles r /c/c/c/a/c/b, r /b/c/c/b/a, r /c/c/c/a/a/a/b, n /a/b/a owned /c/c/c/a/a/a/b /c/c/c/a/a/a/b/a guards / /c/c/c/a/c /b/c/c absent /c/c/c/a/c/b /b/c/c/b/a
# seed 19
/ ok
refused /c
refused /
refused /c
refused /c
settles n /c/c, r /b/b owned guards absent /c/c /b/b
roots n /, n /b, r /, r /b/b, r /a/a
steps 2
settles none owned guards absent
settles r /, n /b/a owned guards absent / /b/a
roots n /
steps 4
settles r /, r / owned guards absent / /
# seed 20
/ ok
tree / /a/ /a/c/ /a/a/ /a/a/a/
settles n /a/a, r /a/a/c/c, r /a/b/b, r /a/a/a/c, r /a/c owned /a/c /a/a guards /a /a/a /a/a/a absent /a/a/c/c /a/b/b /a/a/a/c
roots r /a/a/b, n /a/a, n /a
steps 28
settles r /a, n /a/b/a, n /a/a/a owned /a /a/c /a/a /a/a/a guards /a absent /a/b/a
settles none owned guards absent
roots r /a/a/b, r /a/a, r /a/a/a, r /, n /
steps 24
settles r /a, r /a/c, n /a/a/b/b, n /a/a, r /a/a owned /a /a/c /a/a /a/a/a guards /a/a absent /a/a/b/b
# seed 21
/ ok
tree / /a /c/ /c/a/ /c/a/a@ /c/a/b/ /b/ /c/b/ /c/b/c/ /c/b/c/c/ /c/b/b/ /b/c@
refused /c/b
settles n /c/b/b/c/b, r /c/b/c/c, r /c/a/a, n /c/b/c owned /c/b/c /c/b/c/c guards /c/a /c/b/b absent /c/b/b/c/b
roots r /b/c, n /c/b, r /a/b/c, r /a/a/b
steps 7
settles n /c/a/b, r /c/a/a, n /c/b/b, n /c/b owned /c/a/b /c/b /c/b/b guards /c/a absent
settles n /c/b/b, r /c/b/c owned /c/b/c /c/b/c/c /c/b/b guards absent
roots r /c/b, n /c/b/b, r /c/b/c/c/c
steps 0
settles r /c/a/a, n /c/c owned guards /c /c/a absent /c/c
# seed 22
/ ok
tree / /c /b/ /b/b/ /b/b/a@ /b/b/c/ /a /b/c/ /b/b/b/ /b/b/b/c/ /b/c/c /b/b/b/b /b/b/b/c/c /b/b/c/a /b/a/ /b/a/c@ /b/b/b/c/a/ /b/b/b/c/b/ /b/a/a/ /b/a/b /b/c/b/ /b/b/b/c/b/c/ /b/b/b/c/b/c/b/ /b/b/c/b/ /b/c/a/ /b/b/c/b/a/ /b/b/b/c/a/a /b/b/c/b/c/
refused /b/a/a
settles n /b/b/b/c/b/c/b/b/b, r /b/b/b/c/b/c/b/c/c, r /b/c owned /b/c /b/c/b /b/c/a guards /b/b/b/c/b/c/b absent /b/b/b/c/b/c/b/b/b /b/b/b/c/b/c/b/c/c
roots r /b/b/c, r /b/a/a/b
steps 26
settles r /b/b/c/b/a/c/a, r /b/a/a, r /c owned /c /b/a/a guards /b/b/c/b/a absent /b/b/c/b/a/c/a
settles r /c/c/b, n /b/a/c, n /b/b/c/a/b owned guards / /b/b/c /b/a absent
roots r /b/b/c/b/b, r /b/a/b, r /b/b/c/a
steps 1
settles n /b/a, n /b/b/c, r /b/b/b/c/b/c/b, r /b/b owned /b/b /b/b/c /b/b/b /b/b/b/c /b/a /b/b/b/c/a /b/b/b/c/b /b/b/b/c/b/c /b/b/b/c/b/c/b /b/b/c/b /b/b/c/b/a /b/b/c/b/c guards absent
# seed 23
/ ok
tree / /c/ /a/ /b/ /c/b/ /a/a/ /a/a/a/ /c/b/c /c/c/ /b/c /b/a/ /b/a/a/ /a/c/ /a/b/ /b/a/a/a /c/c/c/ /b/a/c/ /a/a/b/ /a/b/c/ /c/b/a /a/b/b /a/c/b/ /b/b/
settles r /a/b/b/c/b, r /a/c/c/b, r /b/a/c, r /a/b/b/a, r /b/b/a owned /b/a/c guards /a/c /a/b /b/b absent /a/c/c/b /b/b/a
roots n /a/c/b, r /b/c/a, r /c/c/a, r /b/a/a
steps 1
settles r /a/c/b, r /b/c, r /b/a/a/a/b, r /b/a/a/a owned /b/c /b/a/a/a /a/c/b guards /b/a/a absent
settles r /b/a/a owned /b/a/a guards absent
roots r /b, r /a/c/a
steps 6
settles r /c/c/c/b/a, r /b/a/a/a owned /b/a/a/a guards /c/c/c absent /c/c/c/b/a
# seed 24
/ ok
tree / /a/ /b@ /a/b/ /a/a/ /a/b/a@ /a/b/b/ /a/a/c/ /a/a/a/ /a/c/ /a/a/c/b/ /a/c/a/ /a/c/a/b/ /a/a/a/b /a/c/a/b/b/ /a/a/b/ /a/c/c/
refused /a/c
refused /a/a/c/b
refused /a/c/a/b
refused /a/a/c/b
settles none owned guards absent
roots none
steps 16
settles r /a/a/c, r /a/a/c/b/c, r /a/a/a, r /a/c/a/b/b, r /a/c/c owned /a/a/c /a/a/a /a/c/a/b/b /a/c/c guards /a/a/c/b absent /a/a/c/b/c
settles r /a/c/c, n /a/c/a/b, r /a/b/b, n /a/c/a, r /a/a/c/c/a owned /a/b/b /a/c/a /a/c/a/b /a/c/c guards /a/a/c absent /a/a/c/c/a
roots r /a/a/b, r /a/a/c/c/a, n /a/a/b, n /a/a/c
steps 9
settles r /a/c/c/c, r /a/c/a owned /a/c/a guards /a/c/c absent /a/c/c/c
# seed 25
/ ok
tree / /a /c/ /c/a /b/ /c/b /b/a/ /b/b@ /c/c/ /c/c/b/ /c/c/b/c/ /b/c /c/c/c/ /b/a/c/ /b/a/c/c /c/c/b/b /b/a/b /c/c/b/c/a /c/c/c/a@ /b/a/a/ /c/c/b/c/c/ /c/c/b/c/b/ /b/a/c/a/ /c/c/c/c/ /b/a/a/b/
settles r /c/c/b/b, r /c/c/b/c/a, r /b/c, n /b/b owned /b/c /c/c/b/b /c/c/b/c/a guards /b absent
roots r /c/c/b/c, r /c, n /b/a/c/a/b, r /c/c/b/c/a, r /b/a/b
steps 11
settles r /b/a/a/a owned guards /b/a/a absent /b/a/a/a
settles none owned guards absent
roots none
steps 25
settles r /c/c/b, r /c/c/c/a/c, n /c/c/c owned /c/c/b /c/c/b/c /c/c/c /c/c/b/c/c /c/c/b/c/b guards /c/c/c absent
# seed 26
/ ok
tree / /a/ /a/a@ /a/c /a/b/ /a/b/a/ /a/b/a/a/ /a/b/b/ /a/b/a/a/c/ /a/b/a/a/c/c@
refused /a/b/a/a/c
refused /a/b/a/c
refused /a/a
refused /
settles r /a/b/a/a, r /a/b/a/a, r /a/b/a/c owned /a/b/a/a guards /a/b/a absent /a/b/a/c
roots r /a/a
steps 6
settles r /a/a owned guards /a absent
settles none owned guards absent
roots r /a/b/a/a/c, r /a/a/a/c
steps 24
settles r /a/b/a/c/b owned guards /a/b/a absent /a/b/a/c/b
# seed 27
/ ok
tree / /b/ /c/ /b/b /c/c/ /c/c/c/ /a@ /c/c/c/a/ /c/b/ /b/c /c/c/c/b/ /c/a /c/c/c/a/a/ /c/b/a/ /c/b/a/c /c/c/c/a/a/c/ /c/b/a/a /c/c/a/ /c/c/c/b/a/ /c/b/b/ /c/c/a/a /c/b/a/b /c/c/c/a/b/ /c/b/b/c /c/c/c/a/a/b/ /c/c/c/b/a/c/ /c/c/c/a/a/c/b /b/a /c/c/a/c/ /c/c/c/a/a/c/c
refused /c/c/a/a
refused /c/c/a/c/a/a
refused /c/b/b/c
settles r /c/c/c/a/a/c/c/a owned guards /c/c/c/a/a/c absent
roots r /c/c/a, r /b, r /c/c/c/b, r /c/b, r /c
steps 23
settles r /c/c/c/a/b, r /c/c/a/a/a, r /c/c/c/a/b owned /c/c/c/a/b guards /c/c/a absent
settles r /c/c/c/a/b, r /c/c/a, r /c/c/c/a/a, r /c/b/b/c, r /c/b/a owned /c/c/c/a/a /c/b/a /c/c/c/a/a/c /c/c/a /c/c/c/a/b /c/b/b/c /c/c/c/a/a/b /c/c/a/c guards absent
roots n /c/b/a, r /c/c/a/b, r /c/c/c, r /c/c/c/b, r /a
steps 10
settles none owned guards absent
# seed 28
/ ok
tree / /a/ /a/a/ /a/a/b /b/ /a/a/a/ /b/b /a/b/ /a/a/a/c/
settles r /a, r /, r /a/a/a, r /a owned / /a /a/a /b /a/a/a /a/b /a/a/a/c guards absent
roots r /a
steps 11
settles r /a/c, r /a/a/a, r /a/a/b, r /a, r /b owned /a /a/a /a/a/b /b /a/a/a /a/b /a/a/a/c guards /a absent /a/c
settles r /a/a/b/b owned guards /a/a absent
roots r /a/a, r /a/a/a, r /a/a/a/c, r /a/a/b, n /b
steps 9
settles r /a/a/a/c, r /a/a/a/c, r /, r /a/a/b/a, n / owned / /a /a/a /b /a/a/a /a/b /a/a/a/c guards /a/a absent
# seed 29
/ ok
tree / /c /a@ /b
refused /c
refused /
refused /
refused /
settles none owned guards absent
roots r /c, n /b/c/c, r /b, r /a, r /
steps 11
settles n /c, r /a, r /a owned /c guards / absent
settles none owned guards absent
roots none
steps 11
settles r /a, n /, r /b/c/a, n /c owned / /c guards / absent
# seed 30
/ ok
tree / /c/ /c/a@ /a/ /b/ /b/c /a/c/ /a/a/ /a/c/a/ /b/a/ /c/b@ /a/c/a/a/ /a/c/a/a/b /b/a/b@ /a/a/a/ /b/a/c/ /a/a/b/ /a/a/b/c/ /a/a/b/c/a@ /a/a/a/a/ /a/a/a/b/ /c/c/ /a/a/a/a/c/ /b/a/a/ /a/b@ /b/a/c/b/ /a/a/a/a/c/c/ /c/c/a@ /b/a/a/c/ /a/a/b/c/c /b/a/a/b/ /b/a/a/b/c/ /a/a/a/a/a/ /a/a/a/a/a/a/ /a/a/a/a/a/a/a/
settles r /b/a/b/c/b, r /b, r /b/a/b, r /b/c/a owned /b /b/a /b/a/c /b/a/a /b/a/c/b /b/a/a/c /b/a/a/b /b/a/a/b/c guards /b /b/a absent
roots n /c/c/a, r /a/b, n /b/a/a
steps 28
settles r /b/a/a, r /a/a/b/c/c, r /a/c/a/a, n /c/c/a owned /a/c/a/a /b/a/a /b/a/a/c /a/a/b/c/c /b/a/a/b /b/a/a/b/c guards /c/c absent
settles n /b/a/c/b, r /a/a, r /a, r /b/a/a/b/b/c owned /a /a/c /a/a /a/c/a /a/c/a/a /a/a/a /a/a/b /a/a/b/c /a/a/a/a /a/a/a/b /a/a/a/a/c /b/a/c/b /a/a/a/a/c/c /a/a/a/a/a /a/a/a/a/a/a /a/a/a/a/a/a/a guards /b/a/a/b absent /b/a/a/b/b/c
roots n /a/a/a/a/a/a/a/b
steps 19
settles r /a/a/a/a/a/a/a/a, n /a/a/a/a/c owned /a/a/a/a/c guards /a/a/a/a/a/a/a absent /a/a/a/a/a/a/a/a
# seed 31
/ ok
tree / /a/ /a/b /c/ /c/b/ /a/c/ /c/b/c/ /c/b/c/a /b@ /c/a/ /a/a/ /a/a/a/ /c/a/c/ /a/a/b@ /a/a/a/b /c/b/c/b/ /c/a/a/
refused /a/a/a/c
refused /a/a/b
settles n /c, r /c/b/c/a/c/b owned /c guards /c/b/c absent
roots r /a/a/b/c, r /, n /c
steps 22
settles r /c/a/b, r /b/a, r /c/b/c/b/b/b, r /a/a/a/b, r /a owned /a /a/c /a/a /a/a/a /a/a/a/b guards / /c/a /c/b/c/b absent /c/a/b /c/b/c/b/b/b
settles none owned guards absent
roots r /a/c/b, n /c/b/c/b/c/c
steps 9
settles r /a/c owned /a/c guards absent
# seed 32
/ ok
tree / /c/ /c/c/ /b/ /a/ /b/b/ /c/c/c@ /c/b/ /c/b/c/ /c/b/c/c/ /b/b/b/ /c/b/c/c/b/ /b/c
refused /b/b/b
refused /c/b/c/c
settles n /c/b/c, r /c/b owned /c/b /c/b/c guards absent
roots r /b/b, r /c/c, r /c/c
steps 15
settles r /c/b/c/b, r /a/a/a, r /b/b/b owned /b/b/b guards /a /c/b/c absent /c/b/c/b /a/a/a
settles r /c/b/c, r /b/b/b/a, n /b/c, n /b/b, n /b/b/b owned /b/b /c/b/c /b/b/b /b/c guards /b/b/b absent /b/b/b/a
roots r /b/c, r /b/c
steps 3
settles r /b, r /c/b/c/c/b, r /c/b/c/c/b, r /c/c/c owned /b /b/b /c/b/c/c/b guards /c/c absent
# seed 33
/ ok
tree / /a/ /c/ /c/c/ /a/a@ /b/ /b/b@ /a/b/ /c/a/ /c/a/b /c/c/b /a/c@ /c/c/c/ /b/a/ /c/c/c/a@
refused /c/c/b
refused /b
settles r /c, r /b/b, r /c/c/b/a, n /b/b, r /c/a/b/c/a owned /c /c/c /c/a /c/c/c guards /c/c /b /c/a absent
roots r /b/b, r /
steps 2
settles n /c/b, r /a/c, r /c/c/c/a/c owned guards /a /c /c/c/c absent /c/b
settles r /c/c/b/a/b, r /c owned /c /c/c /c/a /c/c/c guards /c/c absent
roots none
steps 10
settles r /c/c/b/c, r /c/c/c/a, r /c, n /c, r /c/c/b owned /c /c/c /c/a /c/c/b /c/c/c guards /c/c /c/c/c absent
# seed 34
/ ok
tree / /c/ /c/c/ /c/b /c/c/a/ /c/c/a/b/ /c/a/ /c/c/a/b/a /c/a/c/ /c/a/c/b/ /a /c/c/a/b/b/ /c/a/b/ /c/a/c/c/ /c/a/c/b/c /c/c/a/c /c/a/c/b/b/ /c/c/a/b/b/b/ /c/c/b/ /c/a/c/c/b/ /c/a/b/c/ /c/c/a/b/b/b/c/ /c/a/b/c/a/ /c/a/b/c/a/c /c/a/b/c/a/b@ /c/a/b/c/b/ /b/ /c/a/c/c/c/ /c/a/c/b/b/a@ /c/a/c/c/b/a /c/a/c/c/b/b/ /c/c/a/b/c/ /c/a/c/b/b/b/ /c/a/c/c/c/b/ /c/c/a/b/b/b/a/ /c/c/a/a@ /c/a/b/c/b/b@
refused /c/a/b/c/a
refused /c/c/a/b/b/c/b
refused /c/c/b
settles r /c/c/a/b/b, r /c/a/b/c/b/b/b, r /c/a/b/c/a owned /c/c/a/b/b /c/c/a/b/b/b /c/c/a/b/b/b/c /c/a/b/c/a /c/c/a/b/b/b/a guards /c/a/b/c/b absent
roots r /c/a, r /c/a/b/c/a/b
steps 27
settles none owned guards absent
settles r /c/c/a/b/a/b owned guards /c/c/a/b absent
roots r /c/a/c/b/b/a, n /c/a/c/b/b, r /c/a/b/c/b
steps 27
settles r /c/a/c/c/b/b, n /c/c/b, r /c/a/c/c/b/a/c/c owned /c/c/b /c/a/c/c/b/b guards /c/a/c/c/b absent
# seed 35
/ ok
tree / /b/ /b/a/ /b/c/ /b/a/b@ /b/c/b/ /b/a/a /b/c/c/ /b/c/b/b/ /b/c/c/b/ /b/c/b/a/ /b/c/c/c@ /b/c/b/a/b/ /b/c/c/b/b/ /b/c/b/b/a /a/ /b/c/b/a/b/a /b/c/b/a/c /b/c/b/c/ /b/c/c/b/b/a /b/c/b/a/b/c/ /a/b /a/c/ /b/c/b/c/a@ /b/b /b/c/b/c/b@ /b/c/b/a/a/ /a/c/c/ /b/c/b/a/b/c/c
refused /b
refused /b/a/b
settles n /b/c/b/c/c/b, r /a/b owned /a/b guards /b/c/b/c absent /b/c/b/c/c/b
roots n /b/c/b/c/a
steps 20
settles r /b/c/b/c/a/a/b owned guards /b/c/b/c absent
settles r /b/c/b/a/b/c/c owned /b/c/b/a/b/c/c guards absent
roots r /b/a/b/c, r /b/c/c/b/b/c, r /a/c/c/a/b
steps 14
settles n /b/c/b/a/b/c/c/c, r /b/c/c/b/b/a owned /b/c/c/b/b/a guards /b/c/b/a/b/c absent
# seed 36
/ ok
tree / /a/ /b/ /b/a/ /a/a/ /b/a/a/ /b/a/a/a/ /a/c/ /b/a/b/ /a/b/ /b/a/c/ /a/a/c/ /b/a/a/c@ /b/b /b/a/a/a/a/ /b/a/a/a/c/ /b/a/b/b/ /a/a/a/ /b/a/b/c@ /b/a/a/a/a/a/ /b/a/b/b/a/ /b/a/b/b/a/c/ /a/b/b/ /a/c/c /a/a/c/c@ /a/a/b/ /b/a/b/a /a/a/b/c/ /b/a/b/b/a/c/b/ /a/a/c/a/ /a/a/b/b/ /b/a/a/a/b/ /b/a/a/a/a/a/a/ /b/a/c/c /b/a/b/b/a/c/b/b@ /a/a/a/b /b/a/b/b/a/b/ /b/a/a/a/b/a/ /b/a/a/a/b/a/b/
settles r /a/a/b, r /a/a/b/b/b owned /a/a/b /a/a/b/c /a/a/b/b guards /a/a/b/b absent /a/a/b/b/b
roots r /b/a/b/b/a/c/b, n /b/a/a, n /a/a/c
steps 24
settles none owned guards absent
settles r /b/a/a/a owned /b/a/a/a /b/a/a/a/a /b/a/a/a/c /b/a/a/a/a/a /b/a/a/a/b /b/a/a/a/a/a/a /b/a/a/a/b/a /b/a/a/a/b/a/b guards absent
roots r /b/a
steps 1
settles r /b/a/a/a owned /b/a/a/a /b/a/a/a/a /b/a/a/a/c /b/a/a/a/a/a /b/a/a/a/b /b/a/a/a/a/a/a /b/a/a/a/b/a /b/a/a/a/b/a/b guards absent
# seed 37
/ ok
tree / /a@
refused /a
refused /
refused /
settles r /, n /a, r /a, r /a/b owned / guards / absent
roots r /a, r /, r /b, n /a, r /
steps 8
settles n /, r /a, r /a/a, r /a, r /a owned / guards / absent
settles none owned guards absent
roots n /a/b/c, r /, r /a/c/b
steps 21
settles r /a/c, n /, n /a owned / guards / absent
# seed 38
/ ok
tree / /c/ /c/a/ /b /c/a/a@ /a@ /c/c/ /c/c/c/ /c/c/c/c /c/c/c/a /c/c/a /c/a/b/ /c/a/b/c/ /c/a/b/a/ /c/a/b/c/b /c/a/b/c/a/
refused /c/a/b/c/b
refused /c
refused /c/c/c/c
refused /a
settles r /b, r /c/a/b, n /c/c/b, r /a owned /b /c/a/b /c/a/b/c /c/a/b/a /c/a/b/c/a guards / /c/c absent /c/c/b
roots r /c/a/b/c, r /c/a/b/a/a/b, r /c/a/b/c, r /b/c/a
steps 11
settles none owned guards absent
settles r /c/a/b/c/b, r /c/c/c/b, r /c/c/c, r /c/c/a/a owned /c/c/c /c/a/b/c/b guards /c/c /c/c/c absent /c/c/c/b
roots none
steps 15
settles r /c/a, r /c/a/b/c/a, r /c/a/b owned /c/a /c/a/b /c/a/b/c /c/a/b/a /c/a/b/c/a guards absent
# seed 39
/ ok
tree / /a/ /c@ /b@ /a/a/ /a/a/a/ /a/c /a/a/a/a/
refused /c
refused /a/a/a
settles r /a owned /a /a/a guards absent
roots r /c, r /a
steps 7
settles r /a/a/a/a, r /b/c, r /c/c, r /a/c/a/c owned /a/a/a/a guards / /a absent
settles r /a, n /b/c, r /a/c owned /a /a/a /a/c guards / absent
roots r /b/c/c, r /a/a
steps 25
settles r /b/b/b, n /a/a owned /a/a guards / absent
# seed 40
/ ok
tree / /c/ /a /c/c/ /c/c/b /b/
settles n /c/b, r / owned / /c /c/c /b guards /c absent /c/b
roots r /c/c/c, r /c, r /b/b/c, r /a/b/c, r /a/c
steps 10
settles r /c/c/b, r /c/c, r /c/c/b/a/a owned /c/c /c/c/b guards /c/c absent
settles none owned guards absent
roots r /b, n /
steps 11
settles r /c/c owned /c/c guards absent
# seed 41
/ ok
refused /
refused /b/c
refused /a/c
refused /
settles r /c owned guards absent /c
roots n /, n /
steps 16
settles r /a/b, r / owned guards absent /a/b /
settles r /b owned guards absent /b
roots r /, r /, r /a/a, r /, n /
steps 27
settles r /, r / owned guards absent / /
# seed 42
/ ok
tree / /b/ /c/ /b/b/ /b/b/a/ /a /b/b/a/b/ /b/b/b/ /c/a /b/b/b/a/ /b/b/b/a/b/ /b/b/a/a@ /b/b/b/a/a/ /b/b/b/a/a/c/ /b/b/b/a/a/a/ /b/b/b/a/a/c/c/ /b/b/b/a/c/ /b/b/b/a/b/b/ /b/c/ /b/b/b/a/a/c/b@ /b/b/b/a/a/c/c/a /b/a/ /b/b/b/a/b/a/ /b/b/b/a/a/c/c/c/ /b/b/b/a/b/a/c/ /b/b/a/b/c/ /b/b/b/a/b/a/a@ /b/b/b/a/c/a /b/b/a/b/b /b/b/b/a/a/c/c/c/b/ /c/c/ /b/b/b/b/ /b/b/b/a/b/c/ /b/b/b/a/a/c/c/c/b/a /b/b/b/a/b/b/c /b/b/a/b/c/a/ /b/c/a@ /b/b/b/a/b/c/b /b/b/a/b/c/c/ /b/b/b/a/a/c/c/c/c/ /b/c/c/
refused /b/b/b/a/a/c
refused /c/a/c/b
settles r /, r /b/b/b/a/b/a, r /c/a, r /b/b/b/a/b/a, r /b/b/b/b owned / /b /c /b/b /b/b/a /b/b/a/b /b/b/b /c/a /b/b/b/a /b/b/b/a/b /b/b/b/a/a /b/b/b/a/a/a /b/b/b/a/c /b/b/b/a/b/b /b/c /b/a /b/b/b/a/b/a /b/b/b/a/b/a/c /b/b/a/b/c /c/c /b/b/b/b /b/b/b/a/b/c /b/b/a/b/c/a /b/b/a/b/c/c /b/c/c guards absent
roots r /b/b/b/a/a/a, n /c/c, r /b/b/b/a/a/c/b/b/a, r /b/b/b/a/c/a
steps 26
settles r /b/c/c, n /b/b/b/a/a/c/c/a, r /b/b/a/b/c/c owned /b/b/b/a/a/c/c/a /b/b/a/b/c/c /b/c/c guards absent
settles r /b/b/a/b, r /b, r /b/c/c, r /b/b/b/a/a/c/c/c/c/a owned /b /b/b /b/b/a /b/b/a/b /b/b/b /b/b/b/a /b/b/b/a/b /b/b/b/a/a /b/b/b/a/a/a /b/b/b/a/c /b/b/b/a/b/b /b/c /b/a /b/b/b/a/b/a /b/b/b/a/b/a/c /b/b/a/b/c /b/b/b/b /b/b/b/a/b/c /b/b/a/b/c/a /b/b/a/b/c/c /b/c/c guards /b/b/b/a/a/c/c/c/c absent /b/b/b/a/a/c/c/c/c/a
roots n /b/b/b/a/b/b/c, n /c/b
steps 12
settles none owned guards absent
# seed 43
/ ok
tree / /b/ /c/ /a/ /b/c/ /a/c@ /b/c/b/ /c/c/ /c/c/c /b/b /c/b/ /b/c/b/a /b/c/c/ /c/b/c /c/c/b /b/c/b/c/ /c/a/ /c/b/b@ /b/c/b/c/b/ /b/c/c/b/ /b/c/b/c/b/c/ /b/c/c/b/b/ /b/c/c/b/a/ /b/c/c/c/ /c/a/a
refused /b/c/b/c/b/c
settles r /b/c/c, r /b/c/b/c/b/c owned /b/c/c /b/c/c/b /b/c/b/c/b/c /b/c/c/b/b /b/c/c/b/a /b/c/c/c guards absent
roots none
steps 0
settles r /b/c/c owned /b/c/c /b/c/c/b /b/c/c/b/b /b/c/c/b/a /b/c/c/c guards absent
settles r /c/b/c/c, r /c owned /c /c/c /c/b /c/a guards /c/b absent
roots n /a
steps 28
settles none owned guards absent
# seed 44
/ ok
tree / /b/ /b/a /c/ /c/a/ /a@ /b/c/ /c/a/c/ /b/c/c/ /c/a/a/ /c/a/a/c/ /b/c/c/c/ /c/a/a/b /b/c/c/b /b/c/c/c/b/ /b/c/c/a/ /b/c/c/a/c/ /b/c/c/c/b/c/ /c/a/c/c/ /b/c/c/a/c/c/ /b/c/c/c/b/c/c/ /b/c/c/c/b/a/ /b/c/c/a/c/b/ /c/a/c/c/a /b/c/c/a/c/a/ /c/a/a/c/b/ /c/a/a/c/c/ /b/c/c/a/c/c/c/ /b/c/c/c/b/a/b/ /c/a/a/c/b/b
settles r /b/c/c/a/c, n /c/a/a, r /b/c/c/a/c/c/c, r /c/a/a/c/b owned /c/a/a /b/c/c/a/c /b/c/c/a/c/c /b/c/c/a/c/b /b/c/c/a/c/a /c/a/a/c/b /b/c/c/a/c/c/c guards absent
roots r /b/c/c/a
steps 25
settles r /b/c/c/a/c/c/c owned /b/c/c/a/c/c/c guards absent
settles r /b/c/c/c/b/c/c/c/a, r /b/c/c/c, r /c/a/a/c/b, n /b/c/c/c/b/c/c, r /b/c/c/a/c/c/c owned /b/c/c/c /b/c/c/c/b /b/c/c/c/b/c /b/c/c/c/b/c/c /b/c/c/c/b/a /c/a/a/c/b /b/c/c/a/c/c/c /b/c/c/c/b/a/b guards /b/c/c/c/b/c/c absent /b/c/c/c/b/c/c/c/a
roots r /b/c/c/a/c
steps 5
settles r /c/a/c/c/a owned /c/a/c/c/a guards absent
# seed 45
/ ok
tree / /a/ /c/ /a/b/ /c/c/ /c/c/a /c/c/c/ /c/a/ /c/a/a/ /a/b/b/ /c/c/c/a@ /c/a/b/
refused /c/a/a/a
refused /c/c/c/a
refused /c/c/c/a
refused /c/a/b
settles none owned guards absent
roots r /a
steps 23
settles r /c/c, r /a/a, r /a/b/b owned /c/c /c/c/c /a/b/b guards /a absent /a/a
settles r /c/c/c owned /c/c/c guards absent
roots none
steps 6
settles r /a/b, r / owned / /a /c /a/b /c/c /c/c/c /c/a /c/a/a /a/b/b guards absent
# seed 46
/ ok
tree / /c/ /c/c /c/a/ /b@ /c/a/a/ /c/a/c/ /c/a/b /c/a/a/b/ /c/a/a/b/a/ /c/a/a/b/a/b/ /c/a/a/c/ /c/a/a/b/b/ /c/a/a/b/a/a/ /c/b/ /c/a/a/b/a/a/c /c/a/c/a/ /c/a/c/c/ /c/a/a/c/a/ /c/a/a/a/ /c/a/a/c/a/c/ /c/a/a/c/a/c/a@ /c/a/a/b/b/c/
refused /c/a/a/c/a/b
refused /c/a/a/a/c
refused /c/a/a/b/b
settles r /c/b, r /c/a/a/b/a/a/c/b owned /c/b guards /c/a/a/b/a/a absent
roots r /c/a/a/b/a/b, n /c/a/a/b/a, n /c/a/a, r /c/a/a/a
steps 25
settles none owned guards absent
settles none owned guards absent
roots r /c/a/a/b/a/a/c, r /c/a/a/c/a/c, n /c/b
steps 14
settles r /c/a/a/b/b, r /b, r /c/c, r /c/a/a/b/b owned /c/c /c/a/a/b/b /c/a/a/b/b/c guards / absent
# seed 47
/ ok
tree / /b/ /b/c/ /b/c/a/ /b/c/a/c/ /b/c/a/b/ /b/c/a/a/ /b/c/a/a/b/ /a/ /b/c/a/a/a/
settles none owned guards absent
roots r /b/c/a, r /b, r /b/c/a/b/c, r /b/c, r /b
steps 0
settles r /b/c/a/b, r /b/c/a/a/a, r /b/c/a/a/a/c/c, r /b/c/a/c/a, r /b/c owned /b/c /b/c/a /b/c/a/c /b/c/a/b /b/c/a/a /b/c/a/a/b /b/c/a/a/a guards /b/c/a/c /b/c/a/a/a absent /b/c/a/a/a/c/c /b/c/a/c/a
settles r /b/c/a/b/a/c, r /b/c/a, r /a, r /b/c/a/b/b, r /b/c/a/a/a/c/c owned /b/c/a /b/c/a/c /b/c/a/b /b/c/a/a /b/c/a/a/b /a /b/c/a/a/a guards /b/c/a/b /b/c/a/a/a absent /b/c/a/b/a/c /b/c/a/b/b /b/c/a/a/a/c/c
roots r /a/a, n /b/c/a/a/b/c, r /a
steps 2
settles r /c, r /b/c/c/b owned guards / /b/c absent /c /b/c/c/b
# seed 48
/ ok
tree / /b/ /b/b /b/c /c/ /c/a/ /c/a/b/ /c/a/b/b@ /c/a/a/ /c/c/ /a/ /c/a/a/a/ /c/a/a/a/b/ /c/c/c/ /c/a/a/a/b/a/ /c/a/b/a/ /c/c/b/ /c/a/a/a/b/c@ /c/c/c/a/ /c/c/c/b@ /c/a/b/a/a/ /c/c/c/c/ /c/c/b/a/ /c/a/b/a/a/b/ /c/a/a/a/b/a/c/ /c/a/b/a/b /c/c/c/a/c/ /c/a/a/a/c/ /c/a/a/a/b/a/c/c /c/a/a/c/ /c/a/a/a/c/c/ /c/a/a/b/
refused /c/c/c
settles r /c/a/a/a/c/c owned /c/a/a/a/c/c guards absent
roots r /c/a/b/b, r /c/c/b
steps 8
settles r /c/c/c/c, r /b/b, r /c/a/a/a/b/c, r /c/c/c/b owned /b/b /c/c/c/c guards /c/a/a/a/b /c/c/c absent
settles r /a owned /a guards absent
roots r /b, r /c/a/b, n /c/a/a/a/c/c/a, r /c/a/b/a/a/b/b
steps 7
settles none owned guards absent
# seed 49
/ ok
tree / /b /c/ /c/c@ /a
refused /c/a/b
refused /a/b
refused /b/a/a
refused /a
settles r /b/c, r /, n /b, r /c/c, n /c owned / /b /c guards / /c absent
roots r /c, r /c/c, r /a
steps 25
settles none owned guards absent
settles none owned guards absent
roots r /a
steps 6
settles r /a, r /, r /b/c, r /a, r /b owned / /b /c /a guards / absent
";
