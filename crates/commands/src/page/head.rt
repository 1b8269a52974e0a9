//! The page before its data. Written by `checks/page --write` from share/page.

/// The page before its data.
pub const PAGE_HEAD: &str = "<!doctype html>
<html lang=\"en\">
<head>
<meta charset=\"utf-8\">
<meta name=\"viewport\" content=\"width=device-width, initial-scale=1\">
<meta name=\"generator\" content=\"poll82599\">
<meta name=\"color-scheme\" content=\"light dark\">
<title>poll82599: replay</title>
<link rel=\"icon\" href=\"data:,\">
<style>
:root {
  --back: #f6f7f9; --card: #fff; --ink: #1b2430; --soft: #5b6675; --line: #d5dae1; --hover: #eceff4;
  --accent: #1a56c4; --bad: #b3261e; --bad-back: #fdecea; --hit: #fff0b8; --now: #dce8ff;
  --drv: #d9dee6; --ring: #2f6fde; --ctl: #d9730d; --ring-ink: #1a56c4; --ctl-ink: #9a4d00;
  --mono: ui-monospace, 'SF Mono', 'Cascadia Mono', Menlo, Consolas, 'DejaVu Sans Mono', monospace;
  color-scheme: light;
}
@media (prefers-color-scheme: dark) {
  :root:not([data-theme=\"light\"]) {
    --back: #12161c; --card: #1a2029; --ink: #e6eaf0; --soft: #9aa6b5; --line: #303947; --hover: #242c38;
    --accent: #7fb0ff; --bad: #ff8a80; --bad-back: #3a1d1d; --hit: #544611; --now: #23375c;
    --drv: #3a4453; --ring: #4d8dff; --ctl: #f29b45; --ring-ink: #8bb6ff; --ctl-ink: #ffb66b;
    color-scheme: dark;
  }
}
:root[data-theme=\"dark\"] {
  --back: #12161c; --card: #1a2029; --ink: #e6eaf0; --soft: #9aa6b5; --line: #303947; --hover: #242c38;
  --accent: #7fb0ff; --bad: #ff8a80; --bad-back: #3a1d1d; --hit: #544611; --now: #23375c;
  --drv: #3a4453; --ring: #4d8dff; --ctl: #f29b45; --ring-ink: #8bb6ff; --ctl-ink: #ffb66b;
  color-scheme: dark;
}
* { box-sizing: border-box; }
html, body { height: 100%; margin: 0; }
body {
  display: grid; grid-template-rows: auto minmax(0, 1fr) auto; background: var(--back); color: var(--ink);
  font: 15px/1.45 system-ui, 'Segoe UI', Roboto, 'Helvetica Neue', 'DejaVu Sans', sans-serif;
}
h1, h2, h3, p, dl, dd, ul { margin: 0; padding: 0; }
h1 { font-size: 1.05rem; letter-spacing: .01em; }
h1 span { font-weight: 400; color: var(--soft); }
button, select, input { font: inherit; color: inherit; }
button, select, input[type=\"search\"] {
  min-height: 2.1rem; padding: .2rem .65rem; border: 1px solid var(--line); border-radius: .45rem; background: var(--card);
}
button { cursor: pointer; }
button:hover { background: var(--hover); }
button[aria-pressed=\"true\"] { background: var(--accent); border-color: var(--accent); color: var(--card); }
:focus-visible { outline: 3px solid var(--accent); outline-offset: 1px; }
.skip { position: absolute; left: -99rem; }
.skip:focus { left: .5rem; top: .5rem; z-index: 2; padding: .4rem .8rem; background: var(--card); }
.notice { padding: 1rem; }
.gap { flex: 1; }
[hidden] { display: none !important; }

header, footer {
  display: flex; flex-wrap: wrap; align-items: center; gap: .5rem .7rem; padding: .5rem .9rem; background: var(--card);
}
header { border-bottom: 1px solid var(--line); }
footer { border-top: 1px solid var(--line); }
header p { color: var(--soft); }
footer input[type=\"range\"] { flex: 1 1 12rem; min-width: 8rem; height: 2.1rem; accent-color: var(--accent); }
#play { min-width: 4.6rem; }
#position { min-width: 6.5rem; font-family: var(--mono); font-size: .85rem; text-align: right; }

main {
  display: grid; grid-template-columns: minmax(0, 1fr) minmax(19rem, 25rem); grid-template-rows: auto minmax(0, 1fr);
  gap: .8rem; padding: .8rem .9rem; min-height: 0;
}
#now { grid-column: 1; min-height: 4.3rem; padding: .55rem .9rem; border-left: 4px solid var(--accent); background: var(--card); border-radius: .3rem; }
#now.bad { border-color: var(--bad); background: var(--bad-back); }
#where, #told { color: var(--soft); font-size: .85rem; }
#said { font-family: var(--mono); font-size: 1.02rem; }
#said .bad { color: var(--bad); font-weight: 600; }
#queues {
  grid-column: 1; min-height: 0; overflow: auto; display: grid; gap: .8rem; align-content: start;
  grid-template-columns: repeat(auto-fit, minmax(min(100%, 24rem), 1fr));
}
.queue { container-type: inline-size; padding: .7rem .9rem .9rem; border: 1px solid var(--line); border-radius: .6rem; background: var(--card); min-width: 0; }
.queue.moved { border-color: var(--accent); box-shadow: 0 0 0 1px var(--accent); }
.queue.moved.bad { border-color: var(--bad); box-shadow: 0 0 0 1px var(--bad); }
.queue h2 { font-size: 1rem; display: flex; flex-wrap: wrap; gap: .2rem .6rem; align-items: baseline; }
.queue h2 small { font: .8rem var(--mono); color: var(--soft); }
.queue svg { display: block; width: 100%; max-height: 15rem; margin: .2rem 0; }
.queue svg text { font: 9px var(--mono); fill: var(--soft); }
.queue svg .name { font-size: 15px; font-weight: 600; fill: var(--ink); }
.queue svg .mark { fill: var(--ink); font-size: 8.5px; }
.queue svg line { stroke: var(--soft); stroke-width: 1; }
.arc { stroke: var(--card); stroke-width: 1; }
.arc.drv { fill: var(--drv); } .arc.ring { fill: var(--ring); } .arc.ctl { fill: var(--ctl); }
.arc.at { stroke: var(--ink); stroke-width: 2; }
.know { display: grid; grid-template-columns: 4fr 4fr 5fr; gap: .5rem; margin: .5rem 0; }
.know section { padding: .35rem .5rem; border: 1px solid var(--line); border-radius: .4rem; min-width: 0; }
.know h3 { font-size: .72rem; font-weight: 600; letter-spacing: .05em; text-transform: uppercase; color: var(--soft); }
.know dl { display: grid; grid-template-columns: auto 1fr; gap: 0 .4rem; font: .78rem/1.5 var(--mono); }
.know dt { color: var(--soft); }
.know dt, .know dd { white-space: nowrap; }
.know dd { text-align: right; }
.changed { text-decoration: underline; text-decoration-thickness: 2px; text-underline-offset: 3px; text-decoration-color: var(--accent); font-weight: 700; }
table { width: 100%; border-collapse: collapse; font: .82rem/1.35 var(--mono); }
caption { text-align: left; font: .72rem/1.6 system-ui, sans-serif; letter-spacing: .05em; text-transform: uppercase; color: var(--soft); font-weight: 600; }
th { text-align: left; font-weight: 600; color: var(--soft); font-size: .75rem; }
th, td { padding: .17rem .4rem; border-bottom: 1px solid var(--line); vertical-align: top; white-space: nowrap; }
td:nth-child(4), td:nth-child(5) { white-space: normal; }
td.owner { font-weight: 600; }
tr.drv td { color: var(--soft); }
tr.ring .owner { color: var(--ring-ink); } tr.ctl .owner { color: var(--ctl-ink); }
tr.at > * { background: var(--now); }
tr.hit > * { background: var(--hit); }
tr.fold td { text-align: center; color: var(--soft); letter-spacing: .2em; }
.bit, .field { display: inline-block; padding: 0 .3rem; margin: 0 .2rem .1rem 0; border-radius: .25rem; border: 1px solid var(--line); color: var(--soft); }
.bit.set { border-color: var(--accent); background: var(--accent); color: var(--card); font-weight: 600; }
.field { border-color: transparent; padding: 0; margin-right: .5rem; }
.pin { display: inline-block; margin: 0 .35rem .1rem 0; padding: 0 .3rem; border-radius: .25rem; background: var(--hover); color: var(--ink); }

#side { grid-column: 2; grid-row: 1 / 3; display: flex; flex-direction: column; gap: .5rem; min-height: 0; }
form#search, .filter { display: flex; flex-wrap: wrap; gap: .35rem; align-items: center; }
#query { flex: 1 1 6rem; min-width: 4rem; }
#matches, #refusals { color: var(--soft); font-size: .85rem; min-width: 4rem; }
#moves { flex: 1; min-height: 8rem; overflow: auto; position: relative; border: 1px solid var(--line); border-radius: .5rem; background: var(--card); }
.row {
  position: absolute; left: 0; right: 0; height: 28px; padding: 0 .6rem; display: grid; grid-template-columns: 3rem auto minmax(0, 1fr);
  gap: .6rem; align-items: center; font: .82rem var(--mono); cursor: pointer; white-space: nowrap; border-left: 4px solid transparent;
}
.row:hover { background: var(--hover); }
.row .k { color: var(--soft); text-align: right; }
.row .note { color: var(--soft); overflow: hidden; text-overflow: ellipsis; }
.row.bad { border-left-color: var(--bad); }
.row.bad .note { color: var(--bad); }
.row.hit { background: var(--hit); }
.row[aria-selected=\"true\"] { background: var(--now); font-weight: 700; }
#moves p { padding: .6rem; color: var(--soft); }

dialog { max-width: 34rem; border: 1px solid var(--line); border-radius: .7rem; background: var(--card); color: var(--ink); }
dialog::backdrop { background: #0008; }
dialog h2 { font-size: 1.05rem; margin-bottom: .6rem; }
dialog dl { display: grid; grid-template-columns: auto 1fr; gap: .3rem .9rem; margin-bottom: .8rem; }
dialog p, dialog ul { margin-bottom: .8rem; }
dialog ul { list-style: none; }
kbd { font: .8rem var(--mono); padding: .05rem .35rem; border: 1px solid var(--line); border-bottom-width: 2px; border-radius: .3rem; }
.key { display: inline-block; width: 1rem; height: .8rem; border-radius: .2rem; vertical-align: -1px; }
.key.drv { background: var(--drv); } .key.ring { background: var(--ring); } .key.ctl { background: var(--ctl); }

@container (max-width: 29rem) {
  .know { grid-template-columns: 1fr 1fr; }
  .know section:last-child { grid-column: 1 / 3; }
  .know section:last-child dl { grid-template-columns: auto 1fr auto 1fr; gap: 0 1rem; }
}
@media (max-width: 60rem) {
  html, body { height: auto; }
  body { display: block; padding-bottom: 5.6rem; }
  main { display: flex; flex-direction: column; padding: .6rem; }
  #queues { overflow: visible; }
  #moves { height: 45vh; flex: none; }
  footer { position: fixed; left: 0; right: 0; bottom: 0; z-index: 1; gap: .35rem .5rem; padding: .45rem .6rem; }
  footer input[type=\"range\"] { flex: 1 1 calc(100% - 7.5rem); order: -2; height: 1.6rem; }
  footer button { flex: 1; min-width: 2.5rem; min-height: 2.6rem; }
  #position { min-width: 6rem; order: -1; }
}
@media (max-width: 32rem) {
  .speed { font-size: 0; }
  .speed select { font-size: .9rem; }
  .queue { padding: .6rem; }
  th, td { padding: .17rem .25rem; }
  .row { grid-template-columns: 3.2rem auto minmax(0, 1fr); gap: .4rem; padding: 0 .4rem; }
}
@media (prefers-reduced-motion: no-preference) { .arc { transition: fill .12s; } }
@media print { footer, #side, header button { display: none; } main { display: block; } }
</style>
</head>
<body>
<a class=\"skip\" href=\"#moves\">Skip to the list of moves</a>
<header>
<h1>poll82599 <span>replay</span></h1>
<p id=\"count\" aria-live=\"off\"></p>
<label id=\"lists\" hidden>List <select id=\"list\"></select></label>
<label id=\"pairs\" hidden>Pair <select id=\"pair\"></select></label>
<span class=\"gap\"></span>
<button id=\"help\" type=\"button\" aria-haspopup=\"dialog\" title=\"Keys and colors (?)\">?</button>
<button id=\"theme\" type=\"button\" title=\"Light or dark (t)\">Theme</button>
</header>
<noscript><p class=\"notice\">This page needs JavaScript. Its data are lines of JSON in its source.</p></noscript>
<main>
<section id=\"now\" aria-label=\"Current move\">
<p id=\"where\"></p>
<p id=\"said\" aria-live=\"polite\"></p>
<p id=\"told\"></p>
</section>
<section id=\"queues\" aria-label=\"Queues of the pair\"></section>
<section id=\"side\" aria-label=\"Moves\">
<form id=\"search\" role=\"search\">
<label for=\"kind\">Search</label>
<select id=\"kind\" aria-label=\"Search for\">
<option value=\"buffer\">buffer</option>
<option value=\"place\">place</option>
<option value=\"text\">text</option>
</select>
<input id=\"query\" type=\"search\" autocomplete=\"off\" spellcheck=\"false\" aria-label=\"Number or text\" placeholder=\"number\" title=\"Search (/)\">
<button id=\"before\" type=\"button\" title=\"Previous match (Shift+Enter)\" aria-label=\"Previous match\">‹</button>
<button id=\"after\" type=\"submit\" title=\"Next match (Enter)\" aria-label=\"Next match\">›</button>
<output id=\"matches\" for=\"query kind\"></output>
</form>
<div class=\"filter\" role=\"group\" aria-label=\"Refused moves\">
<button id=\"refused\" type=\"button\" aria-pressed=\"false\" title=\"Show only moves that were not enabled\">Refused only</button>
<button id=\"previous-refused\" type=\"button\" title=\"Previous refused move (p)\" aria-label=\"Previous refused move\">‹</button>
<button id=\"next-refused\" type=\"button\" title=\"Next refused move (n)\" aria-label=\"Next refused move\">›</button>
<output id=\"refusals\"></output>
</div>
<div id=\"moves\" role=\"listbox\" tabindex=\"0\" aria-label=\"List of moves\"><div id=\"rows\"></div></div>
</section>
</main>
<footer aria-label=\"Position\">
<button id=\"first\" type=\"button\" title=\"Before the first move (Home)\" aria-label=\"Before the first move\">⇤</button>
<button id=\"back\" type=\"button\" title=\"One move back (←)\" aria-label=\"One move back\">←</button>
<button id=\"play\" type=\"button\" title=\"Play or pause (Space)\" aria-pressed=\"false\">Play</button>
<button id=\"on\" type=\"button\" title=\"One move on (→)\" aria-label=\"One move on\">→</button>
<button id=\"last\" type=\"button\" title=\"After the last move (End)\" aria-label=\"After the last move\">⇥</button>
<input id=\"slider\" type=\"range\" min=\"0\" max=\"0\" value=\"0\" aria-label=\"Number of moves read\">
<output id=\"position\" for=\"slider\"></output>
<label class=\"speed\">Speed <select id=\"speed\">
<option value=\"1\">1/s</option>
<option value=\"3\" selected>3/s</option>
<option value=\"10\">10/s</option>
<option value=\"60\">60/s</option>
</select></label>
</footer>
<dialog id=\"keys\" aria-labelledby=\"keys-title\">
<h2 id=\"keys-title\">Keys and colors</h2>
<dl>
<dt><kbd>←</kbd> <kbd>→</kbd></dt><dd>one move back or on</dd>
<dt><kbd>Page Up</kbd> <kbd>Page Down</kbd></dt><dd>ten moves back or on</dd>
<dt><kbd>Home</kbd> <kbd>End</kbd></dt><dd>before the first or after the last move</dd>
<dt><kbd>Space</kbd></dt><dd>play or pause</dd>
<dt><kbd>n</kbd> <kbd>p</kbd></dt><dd>next or previous refused move</dd>
<dt><kbd>/</kbd></dt><dd>search; Enter and Shift+Enter go to the next and previous match</dd>
<dt><kbd>t</kbd></dt><dd>light or dark</dd>
<dt><kbd>?</kbd></dt><dd>this help</dd>
</dl>
<ul class=\"owners\">
<li><span class=\"key drv\"></span> driver's place</li>
<li><span class=\"key ring\"></span> in the ring: posted or written back</li>
<li><span class=\"key ctl\"></span> fetched by the controller</li>
</ul>
<p><b>fill</b>: where the driver posts. <b>next</b>: where it takes or cleans. <b>use</b>: where the controller fetches. <b>known</b>: the tail that the controller loaded last. Values that the move changed are underlined.</p>
<form method=\"dialog\"><button>Close</button></form>
</dialog>
<script type=\"text/plain\" id=\"data\">
";
