//! The page's beginning: how it looks, and what is before the graph's text.

/// Up to the graph and its inputs.
pub(crate) const TOP: &[u8] = br##"<!DOCTYPE html>
<html lang="en">
<head>
<meta charset="utf-8">
<meta name="viewport" content="width=device-width, initial-scale=1">
<title>A run of a dataflow machine</title>
<style>
:root{
  --mono:ui-monospace,"SFMono-Regular",Menlo,Consolas,"Liberation Mono",monospace;color-scheme:light;--bg:#f6f7f9;--card:#fff;--ink:#1b2430;
  --dim:#5d6b7c;--faint:#8a97a6;--line:#d5dbe3;--soft:#edf0f4;--accent:#1d5fd0;--on:#fff;--fired:#2f6fdf;--waited:#c97a08;--memory:#1a8a4a;
  --defer:#cc3b3b;--manager:#7a4fd0;--host:#0c8494;--waitbg:#ffe9bd;--waitink:#5c3900;--newbg:#d5f3df;--newink:#0a4d27;--act:#fff3a8;--actink:#1b2430;
}
@media (prefers-color-scheme:dark) {
  :root{
    color-scheme:dark;--bg:#11161d;--card:#19202a;--ink:#e5eaf1;--dim:#a3b0c0;--faint:#74839a;--line:#303b4a;--soft:#222b37;--accent:#7fb0ff;
    --on:#0c1420;--fired:#6aa2ff;--waited:#f0b04a;--memory:#4fc783;--defer:#ff7b7b;--manager:#b394ff;--host:#3fc6d6;--waitbg:#5b4311;--waitink:#ffe3ab;
    --newbg:#17482c;--newink:#c9f5da;--act:#57500f;--actink:#fffbe0;
  }
}
*{box-sizing:border-box}
body{margin:0;background:var(--bg);color:var(--ink);font:15px/1.45 system-ui,"Liberation Sans",sans-serif}
h1{font-size:1.15rem;margin:0}
h2{font-size:.95rem;margin:0 0 .35rem}
h3{font-size:.82rem;margin:0;font-weight:600}
button,select{font:inherit;color:inherit;background:var(--card);border:1px solid var(--line);border-radius:6px;padding:.2rem .55rem;cursor:pointer}
button:hover,select:hover{border-color:var(--accent)}
button:disabled{opacity:.4;cursor:default}
:focus-visible{outline:2px solid var(--accent);outline-offset:2px}
code,pre,.mono{font-family:var(--mono);font-size:.86em}
header,main,#plain{max-width:1500px;margin:0 auto;padding:0 .8rem}
header{display:flex;flex-wrap:wrap;gap:.2rem 1rem;align-items:baseline;padding-top:.6rem}
a{color:var(--accent)}
header p{margin:0;color:var(--dim);font-size:.86rem}
#bar{position:sticky;top:0;z-index:5;background:var(--bg);padding:.45rem 0 .4rem;border-bottom:1px solid var(--line);margin-bottom:.5rem}
#ctl{display:flex;flex-wrap:wrap;gap:.35rem;align-items:center}
#ctl button{min-width:2.3rem}
#ctl .go{background:var(--accent);color:var(--on);border-color:var(--accent);min-width:4.6rem;font-weight:600}
#at{font-weight:600;margin:0 .4rem;font-variant-numeric:tabular-nums;min-width:9em}
#more{display:flex;flex-wrap:wrap;gap:.3rem .8rem;align-items:center;margin-bottom:.5rem;font-size:.86rem}
#more label{color:var(--dim);display:inline-flex;gap:.3rem;align-items:center}
#more .pair{display:inline-flex;gap:.25rem}
#told{font-weight:600}
input:not([type]){font:inherit;border:1px solid var(--line);border-radius:6px;background:var(--card);color:var(--ink);padding:.15rem .4rem}
#goto{width:5.5em}
#say{margin:.4rem 0 0;min-height:2.9em;font-size:1.04rem;line-height:1.42}
#say b{color:var(--accent);font-weight:650}
#say .end{display:block;font-weight:600;color:var(--defer)}
#say .ok{color:var(--memory)}
.card{background:var(--card);border:1px solid var(--line);border-radius:9px;padding:.55rem .65rem;margin:0 0 .6rem;min-width:0;contain:layout style}
#tl{position:relative}
#tl canvas{display:block;width:100%;cursor:pointer;border-radius:4px;touch-action:pan-y}
.legend{display:flex;flex-wrap:wrap;gap:.1rem .9rem;font-size:.78rem;color:var(--dim);margin-top:.3rem}
.legend i{display:inline-block;width:.75em;height:.75em;border-radius:2px;margin-right:.35em}
#cols{display:grid;grid-template-columns:minmax(0,1.45fr) minmax(0,1fr);gap:.6rem;align-items:start}
#cols.three{grid-template-columns:minmax(0,1fr) minmax(0,1.2fr) minmax(0,.8fr)}
#text{
  position:relative;overflow:auto;max-height:max(22rem,calc(100vh - 21rem));background:var(--soft);border-radius:6px;padding:.2rem 0;
  font-size:.82rem;line-height:1.5;tab-size:4;
}
.ln{display:flex;border-left:3px solid transparent}
.ln.cur{border-color:var(--waited);background:var(--card)}
.ln code{font-size:inherit;white-space:pre-wrap;overflow-wrap:anywhere;padding:0 .4rem 0 3ch;text-indent:-2ch;min-width:0}
.no{flex:none;width:2.2em;text-align:right;color:var(--faint);user-select:none}
.lw{flex:none;width:2.1em;text-align:center;font-weight:600;user-select:none}
.lw:not(:empty){background:var(--waitbg);color:var(--waitink);border-radius:0 8px 8px 0}
.spot{cursor:pointer;border-radius:3px}
.program .spot{text-decoration:underline dotted var(--faint);text-underline-offset:3px}
.spot:hover{outline:1px solid var(--accent)}
.in{background:var(--soft);background:color-mix(in srgb,var(--act) 45%,transparent)}
.spot.wait{background:var(--waitbg);color:var(--waitink)}
.spot.act{background:var(--act);color:var(--actink);outline:2px solid var(--waited)}
.spot.from{outline:2px dashed var(--waited)}
@media (min-width:861px) and (max-height:820px) {
  main.text:not([hidden]){display:flex;flex-direction:column}
  main.text #tl{order:1}
}
@media (min-width:861px) and (max-width:1099px) {
  #cols.three{grid-template-columns:minmax(0,1.45fr) minmax(0,1fr)}
  #cols>#beside{grid-column:1/-1}
  #text{max-height:12rem}
}
@media (max-width:860px) {
  main:not([hidden]){display:flex;flex-direction:column}
  #cols{display:contents}
  #cols>section{order:1}
  #cols>#beside{order:2}
  #more{order:3}
  #tl{order:4}
  #cols>div{order:5}
  #text{max-height:15rem}
  #bar{padding:.3rem 0 .25rem}
  #say{min-height:4.3em;max-height:7.2em;overflow:auto;font-size:.94rem}
  #at{min-width:0;font-size:.86rem}
  #ctl button{min-height:2.3rem}
  #more button,#more select,#goto,#find{min-height:2rem}
}
.row{display:flex;flex-wrap:wrap;gap:.3rem .6rem;align-items:center;margin-bottom:.4rem}
.row h2{margin:0;margin-right:auto}
.row label{font-size:.8rem;color:var(--dim)}
.row select,.row button{padding:.05rem .35rem;font-size:.84rem;max-width:14em}
#graph{overflow:auto;max-height:max(26rem,calc(100vh - 21rem));position:relative;border-radius:6px;background:var(--soft)}
#graph svg{display:block;margin:0 auto}
svg text{font:12px var(--mono);fill:var(--ink)}
.bbox{fill:var(--card);stroke:var(--line)}
.btitle{font:600 13px system-ui,"Liberation Sans",sans-serif!important;fill:var(--dim)!important}
.node{cursor:pointer}
.node rect{fill:var(--soft);stroke:var(--faint)}
.node .num{fill:var(--dim)}
.node .nm{font-weight:700}
.node .sl{font-size:9.5px;fill:var(--dim)}
.node.entry rect{stroke-width:2}
.node.sel rect{stroke:var(--accent);stroke-width:2.5}
.node.act rect{fill:var(--act);stroke:var(--waited);stroke-width:2.5}
.node.act text{fill:var(--actink)}
.node:focus-visible rect{stroke:var(--accent);stroke-width:3}
.edge{fill:none;stroke:var(--faint);stroke-width:1.2}
.edge.ans{stroke-dasharray:5 3}
.edge.hot{stroke:var(--memory);stroke-width:2.6}
.far{fill:none;stroke:var(--manager);stroke-width:1;stroke-dasharray:2 4;opacity:.55}
.far.on{opacity:1;stroke-width:1.6}
.made{fill:none;stroke:var(--memory);stroke-width:2.2;stroke-dasharray:6 3}
.pl{font-size:9.5px!important;fill:var(--dim)!important}
.others{font-size:9.5px!important;fill:var(--manager)!important}
.tok{cursor:pointer}
.tok rect{fill:var(--card);stroke:var(--accent);stroke-width:1.5}
.tok text{font-size:11px;font-weight:600;text-anchor:middle}
.tok.wait rect{fill:var(--waitbg);stroke:var(--waited)}
.tok.wait text{fill:var(--waitink)}
.tok.new rect{fill:var(--newbg);stroke:var(--memory);stroke-width:2}
.tok.new text{fill:var(--newink)}
.tok.sel rect,.chip.sel{outline:2px solid var(--accent)}
.node:focus,.tok:focus{outline:none}
.tok:focus-visible rect{stroke-width:3.5}
.chip{
  display:inline-block;padding:0 .4rem;border-radius:9px;border:1.5px solid var(--accent);background:var(--card);font:600 .8rem/1.5 var(--mono);
  color:inherit;max-width:16em;overflow:hidden;text-overflow:ellipsis;white-space:nowrap;vertical-align:bottom;
}
.list{list-style:none;margin:0;padding:0;font-size:.86rem}
.list li{padding:.08rem 0}
.list .to{color:var(--dim)}
.scroll{max-height:15rem;overflow:auto;position:relative}
.frame{border:1px solid var(--line);border-radius:7px;padding:.25rem .4rem .35rem;margin-bottom:.35rem}
.frame.cur{border-color:var(--waited);background:var(--soft)}
.frame>button{border:0;background:none;padding:0;font-weight:600;font-size:.86rem;text-align:left}
.frame>button:hover{text-decoration:underline}
.slots,.cells{display:flex;flex-wrap:wrap;gap:.2rem;margin-top:.15rem}
.slot,.cell{
  border:1px solid var(--line);border-radius:5px;font-size:.78rem;line-height:1.5;padding:.02rem .28rem;min-width:1.7rem;max-width:12em;
  overflow:hidden;text-overflow:ellipsis;white-space:nowrap;background:var(--card);color:var(--dim);
}
.slot small,.cell small{opacity:.75;font-weight:400;margin-right:.25em}
.slot.full,.chip.wait{background:var(--waitbg);border-color:var(--waited);color:var(--waitink);font-weight:600}
.cell.full,.chip.new{background:var(--newbg);border-color:var(--memory);color:var(--newink);font-weight:600}
.cell{min-width:2.6rem}
.cell.readers{border:1px dashed var(--defer);color:var(--ink)}
.slot.hit{box-shadow:0 0 0 2px var(--memory)}
.cell.hit{box-shadow:0 0 0 2px var(--waited)}
.none{color:var(--faint);font-size:.84rem}
.ev{padding:0 .35rem!important;font-size:.8rem!important;margin:0 .15rem .15rem 0;font-variant-numeric:tabular-nums}
.ev.cur{background:var(--act);color:var(--actink)}
table{border-collapse:collapse;font-size:.8rem}
td,th{padding:.04rem .5rem;text-align:left;white-space:nowrap}
tr.act{background:var(--act);color:var(--actink)}
tbody tr{cursor:pointer}
.tbl{position:relative;max-height:26rem;overflow:auto;background:var(--card);margin-top:.4rem}
#plain pre{background:var(--card);border:1px solid var(--line);border-radius:6px;padding:.5rem;overflow:auto;max-height:30rem;margin:.2rem 0 .8rem}
#plain{padding-bottom:2rem}
summary{cursor:pointer;font-weight:600;padding:.3rem 0}
#bad{background:var(--defer);color:#fff;padding:.3rem .6rem;border-radius:6px}
kbd{border:1px solid var(--line);border-radius:3px;padding:0 .25em;font-size:.8em;background:var(--card)}
@media print {
  :root{color-scheme:light;--bg:#fff;--card:#fff;--ink:#000;--dim:#333;--line:#999}
  #ctl button,#more,.row select,.row label,.row button,.legend,#plain,#keys,#info{display:none!important}
  #bar{position:static}
  #graph,#text,.scroll{max-height:none;overflow:visible;background:none}
  #graph svg{width:100%;height:150mm}
  .card{break-inside:avoid;border-color:#bbb}
  body{font-size:11pt}
  *{print-color-adjust:exact;-webkit-print-color-adjust:exact}
}
</style>
</head>
<body>
<header><h1>A run of a dataflow machine</h1><p id="sub">Graph, code and report stand below.</p></header>
<main id="app" hidden>
<p id="bad" role="alert" hidden></p>
<div id="bar">
<div id="ctl" role="toolbar" aria-label="Steps of the run">
<button id="first" aria-label="To the start (Home)">|&#9664;</button>
<button id="back" aria-label="One event back (left arrow)">&#9664;</button>
<button id="play" class="go" title="Play or pause (space)">Play</button>
<button id="next" aria-label="One event forward (right arrow)">&#9654;</button>
<button id="last" aria-label="To the end (End)">&#9654;|</button>
<span id="at"></span>
</div>
<p id="say" aria-live="polite"></p>
</div>
<div id="more" role="group" aria-label="Finding an event">
<label>Go to <input id="goto" inputmode="numeric" size="7" placeholder="event" aria-label="Go to event number (g)"></label>
<label>Find <input id="find" size="13" placeholder="A[3], frame 5, 42" autocapitalize="off" autocomplete="off" spellcheck="false"
  aria-label="Find a cell, a frame, an instruction, a function or a value (/)"></label>
<span class="pair"><button id="before" aria-label="Last event of the same (p)">&#9664;</button>
<select id="same" aria-label="The same: of which the next and the last event are wanted">
<option value="instruction">this instruction<option value="frame">this frame<option value="function">this function
<option value="cell">this cell<option value="found">what was found</select>
<button id="after" aria-label="Next event of the same (n)">&#9654;</button></span>
<label><input type="checkbox" id="brief"> without copies, syncs and sends</label>
<label>Speed <select id="speed">
<option value="0.5">1 in 2 s
<option value="1" selected>1 a second<option value="3">3 a second
<option value="10">10 a second<option value="50">50 a second<option value="500">500 a second
<option value="5000">5,000 a second</select></label>
<label id="tlabel" hidden>Text <select id="tsel" aria-label="Text beside the code (t)"></select></label>
<a id="link" href="#event=start">link to this moment</a>
<span id="told" role="status"></span>
</div>
<section class="card" id="tl" aria-label="Waves and timeline">
<canvas id="wv" tabindex="0" role="slider" aria-label="Wave of the run (left and right arrow)" aria-valuemin="0"></canvas>
<div class="legend" id="wlegend"></div>
<canvas id="cv" tabindex="0" role="slider" aria-label="Event of the run" aria-valuemin="-1"></canvas>
<div class="legend" id="legend"></div>
</section>
<div id="cols">
<section class="card" id="beside" hidden aria-label="Text beside the code">
<div class="row"><h2 id="tname">Program</h2><span class="none" id="tmark"></span></div>
<div id="text" tabindex="0" role="region" aria-label="Text, with the places for which instructions were made"></div>
<div class="legend"><span><i style="background:var(--act);outline:1.5px solid var(--waited)"></i>acts now</span>
<span><i style="outline:1.5px dashed var(--waited)"></i>made what is taken</span>
<span><i style="background:var(--waitbg)"></i>words wait, so many in the line</span></div>
</section>
<section class="card" aria-label="Code as a graph">
<div class="row"><h2>Code</h2>
<label>frame <select id="fsel"></select></label>
<label>blocks <select id="bsel"></select></label>
<label>size <select id="zsel"><option value="fit">fit<option value="0.7">70 %<option value="1">100 %<option value="1.4">140 %</select></label></div>
<div id="graph" tabindex="0" role="region" aria-label="Picture of the code"></div>
<div id="note" class="none"></div>
<div class="legend"><span><span class="chip">5</span> on its way</span>
<span><span class="chip new">5</span> made by this event</span>
<span><span class="chip wait">5</span> waits in a slot</span>
<span><i style="background:var(--act);outline:1.5px solid var(--waited)"></i>acts now</span>
<span>&#8617; continuation: whom to answer</span>
<span>dashed: where an answer will come</span>
<span>dotted: link and send, to a block's entries</span>
<span><span style="color:var(--manager)">+2</span> tokens of other frames</span></div>
</section>
<div>
<section class="card" id="info" hidden aria-label="What was chosen" aria-live="polite"></section>
<section class="card"><h2>Outputs</h2><div id="outs"></div></section>
<section class="card"><h2>Frames <span class="none" id="fcount"></span></h2><div id="frames" class="scroll" style="max-height:24rem"></div></section>
<section class="card" id="acard"><h2>Arrays</h2><div id="cells" class="scroll"></div></section>
<section class="card"><h2>Requests that wait</h2><div id="reqs"></div></section>
<section class="card"><h2>Tokens on their way <span class="none" id="tcount"></span></h2><ul id="toks" class="list scroll"></ul></section>
<p class="none" id="keys">Keys: <kbd>&#8592;</kbd> <kbd>&#8594;</kbd> one event, <kbd>space</kbd> play, <kbd>Home</kbd> <kbd>End</kbd>;
<kbd>n</kbd> <kbd>p</kbd> next and last event of the same, <kbd>/</kbd> find, <kbd>g</kbd> go to<span id="tkey" hidden>, <kbd>t</kbd> another text, or none</span>.
Click a token for the event that made it, an instruction or a cell for its events,
the timeline to jump. What is found of a value are the events that make it or leave it in a slot, a cell or an output.</p>
</div>
</div>
</main>
<section id="plain" aria-label="Graph, listing and report as text">
<details open><summary>The graph and its inputs</summary><pre id="source">"##;

/// Between the inputs and the listing.
pub(crate) const TO_LISTING: &[u8] = br##"</pre></details>
<details open><summary>The listing of its code</summary><pre id="listing">"##;

/// Between the listing and the report.
pub(crate) const TO_REPORT: &[u8] = br##"</pre></details>
<details open><summary>The report of the run</summary><pre id="report">"##;

/// Between the report and the data.
pub(crate) const TO_DATA: &[u8] = br##"</pre></details>
<noscript><p>With scripts, this page shows the run event by event.</p></noscript>
</section>
<script type="application/json" id="data">"##;
