//! The page around what is put into it. Made by tools/page-parts from page.html: change that.

/// Up to the title.
pub const TO_TITLE: &str = r##"<!doctype html>
<html lang="en">
<head>
<meta charset="utf-8">
<meta name="viewport" content="width=device-width, initial-scale=1">
<meta name="color-scheme" content="light dark">
<title>"##;

/// Up to the heading, with the styles.
pub const TO_HEADING: &str = r##"</title>
<style>
:root {
  --ground: #f6f7f9; --card: #ffffff; --ink: #1b2230; --soft: #5b6577; --line: #dde2ea; --faint: #eef1f5;
  --now: #fff3c4; --now-ink: #7a5b00; --mark: #ffe08a; --focus: #2563eb; --good: #15803d; --bad: #b42318; --mild: #6b4e00;
  --p0: #2457c5; --p1: #b4460f; --p2: #187a3f; --p3: #7a2fb5; --p4: #0c7078; --p5: #b01f63; --p6: #8a6100; --p7: #4a5568;
  --mono: ui-monospace, "SF Mono", "Cascadia Mono", "DejaVu Sans Mono", Menlo, Consolas, monospace;
  --sans: system-ui, -apple-system, "Segoe UI", "Liberation Sans", "DejaVu Sans", Roboto, sans-serif;
}
@media (prefers-color-scheme: dark) {
  :root {
    --ground: #12161d; --card: #1a2029; --ink: #e6eaf1; --soft: #9aa6b8; --line: #2d3642; --faint: #222a35;
    --now: #3a3212; --now-ink: #f3d98a; --mark: #5c4d14; --focus: #7aa7ff; --good: #6fd08c; --bad: #ff8f84; --mild: #e5c15a;
    --p0: #7fa8ff; --p1: #ff9f6e; --p2: #70d195; --p3: #cda0ff; --p4: #62d0d6; --p5: #ff92c0; --p6: #e6c35c; --p7: #b3bfd0;
  }
}
* { box-sizing: border-box; }
html { -webkit-text-size-adjust: 100%; }
body { margin: 0; background: var(--ground); color: var(--ink); font: 14px/1.45 var(--sans); }
h1, h2 { margin: 0; font-size: 15px; font-weight: 650; }
h2 { font-size: 12px; letter-spacing: .04em; text-transform: uppercase; color: var(--soft); }
code, pre, .m { font-family: var(--mono); font-size: 12.5px; }
header { position: sticky; top: 0; z-index: 5; background: var(--card); border-bottom: 1px solid var(--line); padding: 10px 16px; }
.bar { display: flex; align-items: center; gap: 10px 14px; flex-wrap: wrap; }
.bar .grow { flex: 1 1 200px; min-width: 140px; }
.pill { padding: 2px 10px; border-radius: 99px; border: 1px solid currentColor; font-size: 12px; font-weight: 600; white-space: nowrap; }
.good { color: var(--good); } .bad { color: var(--bad); } .mild { color: var(--mild); }
button { font: inherit; color: inherit; background: var(--faint); border: 1px solid var(--line); border-radius: 7px; padding: 3px 11px; cursor: pointer; }
button:hover:not(:disabled) { border-color: var(--soft); }
button:disabled { opacity: .4; cursor: default; }
button:focus-visible, input:focus-visible, select:focus-visible, [tabindex]:focus-visible { outline: 2px solid var(--focus); outline-offset: 1px; }
input[type=range] { width: 100%; accent-color: var(--focus); margin: 0; display: block; }
#strip { display: block; width: calc(100% - 16px); height: 5px; margin: 2px 8px 0; border-radius: 2px; }
select { font: inherit; font-size: 13px; color: inherit; background: var(--faint); border: 1px solid var(--line); border-radius: 7px; padding: 3px 4px; max-width: 150px; }
#count { font-variant-numeric: tabular-nums; white-space: nowrap; }
#said { margin-top: 7px; min-height: 21px; overflow-wrap: anywhere; }
#said .who { font-weight: 600; }
#said button { padding: 0 7px; font-size: 12px; }
.past { margin-top: 6px; font-size: 12.5px; overflow-wrap: anywhere; }
main { display: grid; gap: 12px; padding: 12px 16px; grid-template-columns: minmax(250px, 29fr) minmax(320px, 42fr) minmax(280px, 29fr); align-items: start; }
.card { background: var(--card); border: 1px solid var(--line); border-radius: 10px; overflow: hidden; }
.card > h2 { padding: 9px 12px 7px; border-bottom: 1px solid var(--faint); }
.card > .in { padding: 8px 12px 10px; }
.tall { height: calc(100vh - var(--head, 100px) - 26px); min-height: 260px; display: flex; flex-direction: column; position: sticky; top: calc(var(--head, 100px) + 12px); }
.tall > .scroll { overflow: auto; flex: 1; }
.stack { display: grid; gap: 12px; min-width: 0; }
#source { margin: 0; padding: 6px 0; min-width: max-content; }
#source .l { display: flex; padding-right: 12px; border-left: 3px solid transparent; line-height: 20px; }
#source .n { width: 3.2em; flex: none; text-align: right; padding-right: 8px; color: var(--soft); user-select: none; }
#source .c { flex: none; position: sticky; right: 0; padding: 0 4px 0 2px; background: var(--card); user-select: none; }
#source .c:empty { padding: 0; }
#source .t { white-space: pre; tab-size: 4; }
#source .took, #source .took .c { background: var(--now); }
.chip { display: inline-block; min-width: 17px; height: 16px; line-height: 16px; padding: 0 4px; border-radius: 5px; text-align: center; font: 600 11px/16px var(--mono); color: var(--card); background: var(--c, var(--soft)); vertical-align: 1px; margin-right: 2px; }
.chip.still { color: var(--c); background: none; box-shadow: inset 0 0 0 1.5px var(--c); }
table { border-collapse: collapse; width: 100%; }
td, th { text-align: left; vertical-align: top; padding: 3px 8px 3px 0; font-weight: 400; }
.proc { padding: 6px 0; border-top: 1px solid var(--faint); content-visibility: auto; contain-intrinsic-size: auto 50px; }
.proc:first-child { border-top: 0; padding-top: 0; }
.proc .top { display: flex; gap: 6px; align-items: baseline; flex-wrap: wrap; }
.proc .where { color: var(--soft); }
.proc .how { margin-left: auto; font-size: 12px; color: var(--soft); }
.proc.can .how { color: var(--good); }
.why { margin: 2px 0 0 24px; font-size: 12.5px; color: var(--bad); }
.why code { color: var(--ink); }
.why .at { color: var(--soft); }
.why.soft { color: var(--soft); }
.vars { display: flex; flex-wrap: wrap; gap: 3px 6px; margin-top: 3px; }
.proc .vars { margin-left: 24px; }
.v { font: 12.5px/18px var(--mono); background: var(--faint); border-radius: 5px; padding: 0 6px; }
button.v { border: 0; text-align: left; overflow-wrap: anywhere; }
.v b { font-weight: 600; }
.v.new { background: var(--mark); }
.v.new s { color: var(--soft); text-decoration-thickness: 1px; }
.chan { padding: 5px 0; border-top: 1px solid var(--faint); }
.chan:first-child { border-top: 0; padding-top: 0; }
.chan .top { display: flex; gap: 2px 8px; align-items: baseline; flex-wrap: wrap; }
.chan .top span { white-space: nowrap; }
.chan .top .m { white-space: normal; overflow-wrap: anywhere; }
.chan .top .m { font-weight: 600; }
.chan .top span:last-child { margin-left: auto; color: var(--soft); font-size: 12px; }
.slots { display: flex; flex-wrap: wrap; gap: 4px; margin-top: 5px; }
.slot { font: 12.5px/20px var(--mono); padding: 0 7px; border-radius: 5px; border: 1px solid var(--soft); }
.slot.free { border: 1px dashed var(--line); color: transparent; min-width: 30px; }
.chan.new .top .m { background: var(--mark); border-radius: 4px; box-shadow: 0 0 0 3px var(--mark); }
ol.moves { margin: 0; padding-left: 26px; }
ol.moves li { padding: 1px 4px; font: 12.5px/19px var(--mono); border-radius: 5px; overflow-wrap: anywhere; }
ol.moves button { font: inherit; text-align: left; width: 100%; overflow-wrap: anywhere; background: var(--card); }
ol.moves button:hover { background: var(--faint); } ol.moves .taken button { background: var(--now); font-weight: 600; }
ol.moves li.taken:not(:has(button)) { background: var(--now); font-weight: 600; }
ol.moves li.taken:not(:has(button))::after { content: "taken next"; display: inline-block; white-space: nowrap; margin-left: 8px; font: 600 11px var(--sans); color: var(--now-ink); }
#printed { margin: 0; white-space: pre-wrap; overflow-wrap: anywhere; max-height: 11em; overflow: auto; }
#printed mark { background: var(--mark); color: inherit; }
.none { color: var(--soft); font-size: 13px; }
label.none { white-space: nowrap; }
#view { overflow-anchor: none; }
#chart { position: relative; cursor: pointer; }
#chart svg { position: absolute; left: 0; display: block; }
#heads { position: sticky; top: 0; z-index: 2; background: var(--card); border-bottom: 1px solid var(--line); display: block; }
svg text { font-family: var(--mono); font-size: 12px; fill: var(--ink); }
svg .no { fill: var(--soft); font-size: 11px; }
svg .halo { paint-order: stroke; stroke: var(--card); stroke-width: 4px; stroke-linejoin: round; }
svg .halo.on { stroke: var(--now); }
svg .band { fill: var(--now); }
svg .band.hover { fill: var(--faint); }
svg .later { opacity: .32; }
#tip { position: fixed; z-index: 9; pointer-events: none; max-width: min(420px, 90vw); background: var(--ink); color: var(--ground); border-radius: 7px; padding: 6px 9px; font-size: 12.5px; display: none; overflow-wrap: anywhere; }
#keys { color: var(--soft); font-size: 12px; padding: 0 16px 14px; }
kbd { font: 11px var(--mono); border: 1px solid var(--line); border-bottom-width: 2px; border-radius: 4px; padding: 0 5px; background: var(--card); }
noscript ol { font-family: var(--mono); font-size: 12.5px; }
@media (max-width: 1080px) {
  main { grid-template-columns: minmax(0, 1fr) minmax(0, 1fr); }
  main.wide { grid-template-columns: minmax(0, 1fr) minmax(0, 1fr); }
  #a-source { grid-column: 1 / -1; order: 3; } #wide { display: none; }
  .tall { position: static; height: min(70vh, 620px); }
}
@media (max-width: 720px) {
  header { padding: 8px 10px; }
  main, main.wide { grid-template-columns: minmax(0, 1fr); padding: 10px; }
  .stack { order: -1; }
  #a-chart { height: auto; max-height: 52vh; min-height: 0; }
  #keys { display: none; }
  .bar .grow { order: 9; flex-basis: 100%; }
  label.none { margin-left: auto; }
}
main.wide { grid-template-columns: minmax(250px, 52fr) minmax(300px, 30fr) minmax(240px, 18fr); }
.card > h2 button { float: right; font: 11px var(--sans); text-transform: none; letter-spacing: 0; padding: 0 7px; margin-top: -2px; }
summary { cursor: pointer; color: var(--soft); font-size: 13px; padding: 4px 0; }
#source .l:focus-visible { outline-offset: -2px; }
@media print {
  body, main { display: block; } header, .tall, #heads { position: static; } .tall { height: auto; max-height: none; } .card { margin: 8px 0; break-inside: auto; }
  .tall > .scroll, #printed { overflow: visible; max-height: none; } button, select, label, input, #strip, #keys, #tip { display: none; } button.v, ol.moves button { display: inline; } #source { white-space: pre-wrap; min-width: 0; } #source .t { white-space: pre-wrap; }
}
</style>
</head>
<body>
<header>
  <div class="bar">
    <h1>"##;

/// Up to the text of the model.
pub const TO_SOURCE: &str = r##"</h1>
    <span id="verdict" class="pill"></span>
    <span>
      <button id="first" aria-label="to the first state"><svg width="14" height="12" viewBox="0 0 14 12" aria-hidden="true"><path d="M1 1h2v10H1z M13 1v10L4 6z" fill="currentColor"/></svg></button>
      <button id="prev" aria-label="one step back"><svg width="14" height="12" viewBox="0 0 14 12" aria-hidden="true"><path d="M11 1v10L2 6z" fill="currentColor"/></svg></button>
      <button id="next" aria-label="one step on"><svg width="14" height="12" viewBox="0 0 14 12" aria-hidden="true"><path d="M3 1v10l9-5z" fill="currentColor"/></svg></button>
      <button id="last" aria-label="to the last state"><svg width="14" height="12" viewBox="0 0 14 12" aria-hidden="true"><path d="M11 1h2v10h-2z M1 1v10l9-5z" fill="currentColor"/></svg></button>
    </span>
    <span class="grow"><input id="slider" type="range" min="0" max="0" value="0" aria-label="step"><canvas id="strip" height="5" aria-hidden="true"></canvas></span>
    <span id="count"></span>
    <span><label class="none">stop at <select id="stops"></select></label> <label class="none"><input type="checkbox" id="only"> hide others</label></span>
  </div>
  <div id="said" role="status"></div>
</header>
<main>
  <section class="card tall" id="a-source" aria-label="source"><h2>Source <button id="wide" aria-pressed="false">wider</button></h2><div class="scroll" tabindex="0"><pre id="source">
"##;

/// Up to the list of steps.
pub const TO_STEPS: &str = r##"</pre></div></section>
  <section class="card tall" id="a-chart" aria-label="chart"><h2>Messages</h2><div class="scroll" id="view" tabindex="0"><svg id="heads" height="30"></svg><div id="chart"></div></div></section>
  <div class="stack">
    <section class="card" id="a-moves"><h2 id="h-moves">Choices</h2><div class="in" id="moves" tabindex="-1"></div></section>
    <section class="card"><h2>Processes</h2><div class="in" id="processes"></div></section>
    <section class="card" id="a-channels"><h2>Channels</h2><div class="in" id="channels"></div></section>
    <section class="card" id="a-globals"><h2>Globals</h2><div class="in" id="globals"></div></section>
    <section class="card" id="a-printed"><h2>Printed</h2><div class="in"><pre id="printed"></pre></div></section>
  </div>
</main>
<p id="keys"><kbd>&larr;</kbd> <kbd>&rarr;</kbd> a step, <kbd>PgUp</kbd> <kbd>PgDn</kbd> ten, <kbd>Home</kbd> <kbd>End</kbd>. A click on a row of the chart goes to its step, on a line of the source to the next step there, on a variable to the step that set it. With others hidden the chart has the steps to stop at, births and deaths. A ring in the chart is a step that was chosen among several.</p>
<div id="tip"></div>
<noscript>
<style>#a-chart, .stack, #keys, .bar > :not(h1) { display: none; } main { display: block; } .tall { height: auto; position: static; } #source { padding: 6px 12px; } #plain { margin: 0 16px 16px; }</style>
<section id="plain" class="card"><h2>Steps</h2><div class="in"><ol>
"##;

/// Up to the lines of JSON.
pub const TO_LINES: &str = r##"</ol></div></section>
</noscript>
<script type="application/json" id="run">
"##;
