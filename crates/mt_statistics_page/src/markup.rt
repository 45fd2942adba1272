/// How many units the longest bar of a chart has.
pub(crate) const WIDTH: u64 = 400;

/// How many numbers of a list have a row of their own. All later ones share a row.
pub(crate) const FIRST: u32 = 20;

/// The header of the row that the later numbers share.
pub(crate) const LATER: &str = "21 or later";

/// What begins the page.
pub(crate) const HEAD: &str = "<!DOCTYPE html>
<html lang='en' xmlns='http://www.w3.org/1999/xhtml'>
<head>
<meta charset='utf-8'/>
<meta name='viewport' content='width=device-width, initial-scale=1'/>
<title>The numbers of a match</title>
<style>
body { max-width: 44rem; margin: 2rem auto; padding: 0 1rem; color: #000; background: #fff; font: 1rem/1.4 sans-serif; }
h1 { font-size: 1.6rem; }
h2 { font-size: 1.2rem; margin: 2rem 0 0.4rem; break-after: avoid; }
table { border-collapse: collapse; }
table.c { width: 100%; }
tr { break-inside: avoid; }
th, td { padding: 0.2rem 1rem 0.2rem 0; text-align: left; vertical-align: baseline; }
thead th { border-bottom: 1px solid #000; }
tbody th { font-weight: normal; overflow-wrap: anywhere; }
th.n, td.n { text-align: right; font-variant-numeric: tabular-nums; }
td.b { width: 60%; vertical-align: middle; }
svg { display: block; width: 100%; height: 0.9rem; border-left: 1px solid #000; }
rect { fill: #1d4f91; }
@page { margin: 2cm; }
@media print { body { max-width: none; margin: 0; padding: 0; font-size: 0.8rem; } }
</style>
</head>
<body>
<main>
<h1>The numbers of a match</h1>
<p>Numbers on lists are those after withdrawals, from 1. Each number is a count, and a bar shows it beside the others
of its table.</p>
";

/// What begins the totals.
pub(crate) const TOTALS: &str = "<h2>Totals</h2>
<table>
<thead><tr><th scope='col'>What</th><th scope='col' class='n'>Number</th></tr></thead>
<tbody>
";

/// What begins the chart of choices.
pub(crate) const CHOICES: &str = "<h2>Choices of singles</h2>
<table class='c'>
<thead><tr><th scope='col'>Choice</th><th scope='col' class='n'>Singles</th><th scope='col'>Bar</th></tr></thead>
<tbody>
";

/// The section of couples, if there is none.
pub(crate) const NO_COUPLES: &str = "<h2>Couples</h2>
<p>The market has no couple.</p>
";

/// What begins the chart of couples.
pub(crate) const COUPLES: &str = "<h2>Couples</h2>
<table class='c'>
<thead><tr><th scope='col'>Members placed</th>
<th scope='col' class='n'>Couples</th><th scope='col'>Bar</th></tr></thead>
<tbody>
";

/// The section of pairs, if no couple has one of its list.
pub(crate) const NO_PAIRS: &str = "<h2>Pairs of couples</h2>
<p>No couple has a pair of its list.</p>
";

/// What begins the chart of pairs.
pub(crate) const PAIRS: &str = "<h2>Pairs of couples</h2>
<table class='c'>
<thead><tr><th scope='col'>Pair</th><th scope='col' class='n'>Couples</th><th scope='col'>Bar</th></tr></thead>
<tbody>
";

/// What begins the chart of programs.
pub(crate) const PROGRAMS: &str = "<h2>Programs</h2>
<table class='c'>
<thead><tr><th scope='col'>Filled</th><th scope='col' class='n'>Programs</th><th scope='col'>Bar</th></tr></thead>
<tbody>
";

/// The section of programs with open posts, if there is none.
pub(crate) const NO_OPEN_POSTS: &str = "<h2>Programs with open posts</h2>
<p>No program has an open post.</p>
";

/// What begins the table of programs with open posts.
pub(crate) const OPEN_POSTS: &str = "<h2>Programs with open posts</h2>
<table>
<thead><tr><th scope='col'>Program</th><th scope='col' class='n'>Quota</th><th scope='col' class='n'>Filled</th>
<th scope='col' class='n'>Listed</th><th scope='col' class='n'>Rank of the last one in</th></tr></thead>
<tbody>
";

/// What ends a table.
pub(crate) const TABLE_END: &str = "</tbody>
</table>
";

/// What ends the page.
pub(crate) const FOOT: &str = "</main>
</body>
</html>
";
