//! The end of the page. Made by tools/page-parts from page.html: change that.

/// The rest: the script.
pub const TO_END: &str = r##"</script>
<script>
"use strict";
// what walks: null in the page of a run, which is as it is; tools/wasm/page puts the machine and the walk in its place
const WALK = null;
const $ = id => document.getElementById(id);
const plain = (k, v) => typeof v !== "string" ? v : v.replace(/[\u200b-\u200f\u2028-\u202e\u2066-\u2069\ufeff]/g, c => "\\u{" + c.charCodeAt(0).toString(16) + "}").replace(/[^\t\n -~\u00a0-\uffff]/g, "?");
// what a line may have that is not shown as it is; most lines have nothing of it, and are read much faster without asking it of each text
const odd = /\\[bfru]|[^\t\n -~\u00a0-\uffff]|[\u200b-\u200f\u2028-\u202e\u2066-\u2069\ufeff]/;
const read = l => odd.test(l) ? JSON.parse(l, plain) : JSON.parse(l);
// a line; the choices of a step are its last member, and are read where they are shown
function event(l) {
  const from = l.startsWith('{"event":"end"') ? -1 : l.lastIndexOf(',"choices":['), e = read(from < 0 ? l : l.slice(0, from) + "}");
  if (from >= 0) e.later = l.slice(from + 11, -1);
  return e;
}
const parsed = lines => lines.trim().split("\n").map(event);
// the moves that a step was one of, as objects
const offered = e => e.later ? read(e.later) : e.of > 1 ? [] : [e];
const esc = s => String(s).replace(/[&<>"]/g, c => ({ "&": "&amp;", "<": "&lt;", ">": "&gt;", '"': "&quot;" })[c]);
const tidy = t => t.split(/("(?:[^"\\]|\\.)*")/).map((x, i) => i % 2 ? x : x.replace(/ ([,;)\]])/g, "$1").replace(/([(\[]) /g, "$1").replace(/([A-Za-z_]\w*) \[/g, "$1[").replace(/(^|[\[(&|]\s?)! /g, "$1!").replace(/ \. /g, ".").replace(/(\w) (\+\+|--)/g, "$1$2").replace(/\b(printf|printm|assert|run \w+|len|full|empty|nfull|nempty|eval) \(/g, "$1(").replace(/([!?]) (\w+) \(/g, "$1 $2(")).join("");
// what a trail of Spin says beside a step
const noted = e => [e.claim ? "claim line " + e.claim : "", e.cycle ? "the cycle begins" : ""].filter(x => x).join(", ");
// shows a run, of which these are the lines of JSON, at a step; `ended` ends it, for another to be shown
function shown(events, model, first, ended) {
  const start = events[0], steps = events.filter(e => e.event === "step"), heard = { signal: ended };
  let end = events[events.length - 1], fault = events.find(e => e.event === "fault"), count = steps.length;
  const show = v => v !== null && typeof v === "object" ? names[v.chan - 1] || "chan " + v.chan : v;
  const list = m => m.map(show).join(", ");
  const hue = p => "var(--p" + (p % 8) + ")";
  const chip = (p, still) => '<span class="chip' + (still ? " still" : "") + '" style="--c:' + hue(p) + '">' + p + "</span>";

  // ---- states: folded from the events, with one kept for every 200 steps; cells may have names that every object has, as toString
  const cells = (...all) => Object.assign(Object.create(null), ...all);
  const copy = s => ({ globals: cells(s.globals), channels: s.channels.slice(), processes: s.processes.map(p => Object.assign({}, p, { locals: cells(p.locals) })), printed: s.printed });
  function fold(s, e) {
    Object.assign(s.globals, e.globals || {});
    for (const c of e.channels || []) s.channels[c.chan - 1] = c;
    for (const p of e.processes || []) {
      const old = s.processes[p.proc];
      s.processes[p.proc] = Object.assign({}, p, { locals: cells(old && p.proc < s.alive ? old.locals : {}, p.locals) });
    }
    if (e.alive !== undefined) { s.processes.length = e.alive; s.channels.length = e.open; s.alive = e.alive; }
    if (e.printed) s.printed = (s.printed + e.printed).slice(-4000);
    return s;
  }
  const base = { globals: cells(), channels: [], processes: [], printed: "", alive: 0 }; fold(base, start); base.alive = base.processes.length;
  const kept = [base], tip = copy(base); tip.alive = base.alive; let folded = 0;
  function keep() { for (; folded < count; folded++) { fold(tip, steps[folded]); if ((folded + 1) % 200 === 0) { const k = copy(tip); k.alive = tip.alive; kept.push(k); } } }
  keep();
  function stateAt(k) { const from = Math.floor(k / 200); const s = copy(kept[from]); s.alive = kept[from].alive; for (let i = from * 200; i < k; i++) fold(s, steps[i]); return s; }

  // the names of the channels, in the state that is spoken of: a number is given again where a channel is gone
  let names = [];
  function name(e) { for (const c of e.channels || []) names[c.chan - 1] = c.name; if (e.open !== undefined && names.length > e.open) names.length = e.open; }
  const named = n => names[n - 1] || "chan " + n;

  // ---- the chart: rows of steps, columns of processes, arrows from sends to receives
  const lives = [], arrows = [], dots = [], open = [], queues = new Map();
  // `into`: the arrow that ends at a step; `longest`: over how many steps one leads at most
  const into = new Map();
  let columns = 0, alive = start.processes.length, charted = 0, last = 0, longest = 1;
  const born = (p, k) => { open[p.proc] = { proc: p.proc, name: p.name, from: k, to: Infinity }; lives.push(open[p.proc]); columns = Math.max(columns, p.proc + 1); };
  for (const p of start.processes) born(p, 0);
  for (const c of start.channels) queues.set(c.chan, c.messages.map(() => null)); name(start);
  function chart() {
    for (; charted < count; charted++) {
      const e = steps[charted], k = charted + 1;
      for (const p of e.processes || []) if (p.proc >= alive) born(p, k);
      if (e.alive < alive) for (let p = e.alive; p < alive; p++) { open[p].to = k; open[p].dies = true; }
      alive = e.alive; name(e);
      const short = e.chan ? named(e.chan).replace(/^.*\]\./, "") : "";
      const said = e.chan ? list(e.message).replace(/[\w:]+\[\d+\]\./g, "") : "";
      const label = e.chan ? short + ({ receive: "?", read: "?<>" }[e.does] || "!") + said : e.printed && e.does === "statement" ? "prints " + JSON.stringify(e.printed.replace(/\n$/, "")) : tidy(e.text);
      dots.push({ k, proc: e.proc, label, said, e });
      const q = e.chan ? (queues.get(e.chan) || queues.set(e.chan, []).get(e.chan)) : null;
      const now = e.channels && e.channels.find(c => c.chan === e.chan);
      if (e.does === "pass") arrows.push({ a: k, b: k, p: e.proc, r: e.to.proc, e });
      else if (e.does === "lose") arrows.push({ a: k, b: k, p: e.proc, lost: true, e });
      else if (e.does === "send") {
        const arrow = { a: k, b: 0, p: e.proc, e }; arrows.push(arrow);
        const was = q.map(x => x && x.text), is = now.messages.map(m => JSON.stringify(m));
        let at = 0; while (at < was.length && was[at] === is[at]) at++;
        q.splice(at, 0, { text: JSON.stringify(e.message), arrow });
      } else if (e.does === "receive" && q.length) {
        let at = q.findIndex(x => x && x.text === JSON.stringify(e.message)); if (at < 0) at = 0;
        const sent = q.splice(at, 1)[0]; if (sent) { sent.arrow.b = k; sent.arrow.r = e.proc; longest = Math.max(longest, k - sent.arrow.a); if (e.proc !== sent.arrow.p) into.set(k, sent.arrow); }
      }
      for (const c of e.channels || []) if (!queues.has(c.chan)) queues.set(c.chan, []);
      for (const n of Array.from(queues.keys())) if (n > e.open) queues.delete(n);
    }
    if (fault) dots.push({ k: count + 1, proc: fault.proc, label: tidy(fault.text), e: fault, fault: true });
    last = count + (fault ? 1 : 0);
  }
  chart();

  // the rows of the chart: of all steps, a row each, or of those that are wanted, of births, deaths and a fault
  let rowAt = null, stepAt = [], rows = 0;
  function layout(wanted) {
    rowAt = null; rows = last + 2;
    if (!wanted) return;
    const births = new Set(lives.map(l => l.from));
    rowAt = new Int32Array(last + 2); stepAt = [0];
    for (let k = 1; k <= last; k++) {
      const e = dots[k - 1].e;
      if (wanted(e) || e.does === "end" || e.event === "fault" || births.has(k)) stepAt.push(k);
      rowAt[k] = stepAt.length - 1;
    }
    rowAt[last + 1] = stepAt.length; stepAt.push(last + 1); rows = stepAt.length;
  }
  layout(null);
  const R = k => rowAt ? rowAt[Math.min(k, last + 1)] : Math.min(k, last + 1), stepOf = row => rowAt ? stepAt[row] : row, has = k => stepOf(R(k)) === k;
  // the place of the first arrow that may be seen from this step on: those before it end before it
  function arrowFrom(step) {
    let low = 0, high = arrows.length; while (low < high) { const middle = (low + high) >> 1; if (arrows[middle].a + longest < step) low = middle + 1; else high = middle; } return low;
  }
  const H = 26; let W = 130, width = 0, left = 40, isPrinted = false;
  const X = p => left + W * p + 14, Y = k => R(k) * H + H / 2;
  function cut(t, px) { const n = Math.max(3, Math.floor(px / 7.3)); return t.length <= n ? t : t.slice(0, n - 1) + "\u2026"; }
  function measure() {
    const room = $("view").clientWidth;
    left = 40 + 8 * Math.max(0, String(last).length - 4);
    W = Math.max(72, Math.min(210, (room - left - Math.min(110, room / (columns > 3 ? 8 : 3.4))) / Math.max(1, columns - 0.4)));
    width = Math.max(room, X(columns - 1) + 60);
    $("chart").style.height = rows * H + 8 + "px"; $("chart").style.width = width + "px";
  }
  function head(x, y, p, nm, dim, top) { return '<g' + (dim ? ' class="later"' : "") + (top && WALK ? ' data-head="' + p + '" role="button" tabindex="0" aria-label="a move of process ' + p + " " + esc(nm) + '"' : "") + '><title>' + p + " " + esc(nm) + '</title><rect x="' + (x - 12) + '" y="' + (y - 9) + '" width="' + Math.min(W - 4, (p + " " + nm).length * 7.3 + 10) + '" height="18" rx="5" fill="' + hue(p) + '"/><text x="' + (x - 6) + '" y="' + (y + 4) + '" style="fill:var(--card);font-weight:600">' + esc(cut(p + " " + nm, W - 14)) + "</text></g>"; }
  function heads(s) {
    let o = "";
    for (let p = 0; p < columns; p++) { const q = s.processes[p]; const nm = q ? q.name : (lives.find(l => l.proc === p) || {}).name || ""; o += head(X(p), 15, p, nm, !q, true); }
    $("heads").setAttribute("width", width); $("heads").innerHTML = o;
  }
  function draw() {
    const view = $("view"), top = isPrinted ? 0 : Math.max(0, Math.floor((view.scrollTop - 60) / H) - 8), bottom = isPrinted ? rows : Math.min(rows, Math.ceil((view.scrollTop + view.clientHeight) / H) + 8);
    const y0 = top * H, h = (bottom - top) * H + 8; let o = "", tips = "";
    const y = k => Y(k) - y0;
    if (hover >= top && hover <= bottom && hover !== R(at)) o += '<rect class="band hover" x="0" y="' + (hover * H - y0) + '" width="' + width + '" height="' + H + '"/>';
    if (R(at) >= top && R(at) <= bottom) o += '<rect class="band" x="0" y="' + (R(at) * H - y0) + '" width="' + width + '" height="' + H + '"/>';
    const yr = r => r * H + H / 2 - y0;
    for (const l of lives) if (R(l.to) >= top && R(l.from) <= bottom) {
      const a = Math.max(R(l.from), top - 1), b = Math.min(l.to > last ? rows : R(l.to), bottom + 1), x = X(l.proc);
      o += '<line x1="' + x + '" x2="' + x + '" y1="' + yr(a) + '" y2="' + yr(b) + '" stroke="' + hue(l.proc) + '" stroke-width="1.6" opacity=".45"/>';
    }
    for (let i = arrowFrom(stepOf(top)); i < arrows.length; i++) {
      const a = arrows[i], b = a.b || a.a + 1;
      if (R(a.a) > bottom) break;
      if (R(b) < top || R(a.a) > bottom || (!has(a.a) && !(a.b && has(a.b)))) continue;
      const later = a.a > at ? ' class="later"' : "", c = hue(a.p), x1 = X(a.p);
      if (a.lost) o += "<g" + later + '><line x1="' + x1 + '" y1="' + y(a.a) + '" x2="' + (x1 + 26) + '" y2="' + y(a.a) + '" stroke="' + c + '" stroke-width="1.8"/><text x="' + (x1 + 24) + '" y="' + (y(a.a) + 4) + '" style="fill:var(--bad)">\u2715</text></g>';
      else if (a.b) {
        const x2 = X(a.r), d = x2 > x1 ? -1 : x2 < x1 ? 1 : 0;
        if (d === 0) o += "<g" + later + '><path d="M' + x1 + " " + y(a.a) + " q -22 " + (y(a.b) - y(a.a)) / 2 + " 0 " + (y(a.b) - y(a.a)) + '" fill="none" stroke="' + c + '" stroke-width="1.6"/></g>';
        else {
          const ang = Math.atan2(y(a.b) - y(a.a), x2 - x1), tx = x2 + d * 5, ty = y(a.b) - (a.a === a.b ? 0 : Math.sin(ang) * 5);
          const w1 = ang + 2.72, w2 = ang - 2.72;
          o += "<g" + later + (a.a <= at && a.b > at ? ' stroke-dasharray="5 4"' : "") + '><line x1="' + x1 + '" y1="' + y(a.a) + '" x2="' + tx + '" y2="' + ty + '" stroke="' + c + '" stroke-width="1.8"/></g>';
          tips += "<g" + later + '><path d="M' + tx + " " + ty + " L" + (tx + 10 * Math.cos(w1)) + " " + (ty + 10 * Math.sin(w1)) + " L" + (tx + 10 * Math.cos(w2)) + " " + (ty + 10 * Math.sin(w2)) + ' Z" fill="' + c + '"/></g>';
        }
      } else o += "<g" + later + '><line x1="' + x1 + '" y1="' + y(a.a) + '" x2="' + (x1 + 18) + '" y2="' + (y(a.a) + 9) + '" stroke="' + c + '" stroke-width="1.6" stroke-dasharray="3 3"/><circle cx="' + (x1 + 21) + '" cy="' + (y(a.a) + 10) + '" r="3" fill="none" stroke="' + c + '"/></g>';
    }
    for (const l of lives) if (R(l.from) >= top && R(l.from) <= bottom && l.from > 0) o += head(X(l.proc), y(l.from), l.proc, l.name, l.from > at);
    for (let r = Math.max(1, top); r <= Math.min(rows - 2, bottom); r++) {
      const k = stepOf(r), d = dots[k - 1], x = X(d.proc), later = k > at && !(d.fault && at === count) ? ' class="later"' : "";
      o += "<g" + later + '><text class="no" x="' + (left - 10) + '" y="' + (y(k) + 4) + '" text-anchor="end">' + k + "</text>";
      if (d.e.does === "end") o += '<path d="M' + (x - 5) + " " + (y(k) - 5) + " l10 10 m0 -10 l-10 10" + '" stroke="' + hue(d.proc) + '" stroke-width="2"/>';
      else {
        o += d.e.of > 1 ? '<circle cx="' + x + '" cy="' + y(k) + '" r="5" fill="var(--card)" stroke="' + (d.fault ? "var(--bad)" : hue(d.proc)) + '" stroke-width="2.2"/>' : '<circle cx="' + x + '" cy="' + y(k) + '" r="4" fill="' + (d.fault ? "var(--bad)" : hue(d.proc)) + '"/>';
        if (d.e.to) { const x2 = X(d.e.to.proc), mid = (x + x2) / 2; o += '<circle cx="' + x2 + '" cy="' + y(k) + '" r="4" fill="' + hue(d.e.to.proc) + '"/><text class="halo' + (k === at ? " on" : "") + '" text-anchor="middle" x="' + mid + '" y="' + (y(k) - 4) + '">' + esc(d.label.length * 7.3 < Math.abs(x2 - x) - 14 ? d.label : cut(d.said, Math.abs(x2 - x) - 14)) + "</text>"; }
        else {
          const from = into.get(k), beside = from ? 18 : 10;
          const lost = d.e.does === "lose" ? 34 : 0, room = width - x - beside - 2 - lost - 7.3 * noted(d.e).length, need = d.label.length * 7.3, right = need <= room || x - left < need + beside;
          const gap = from && X(from.p) > x === right ? beside : 10;
          const bornHere = lives.some(l => l.from === k && l.proc > d.proc);
          const most = bornHere ? W - 30 : right ? room : x - left;
          o += '<text class="halo' + (k === at ? " on" : "") + (d.e.chan ? "" : " no") + '" x="' + (right ? x + gap + lost : x - gap) + '" y="' + (y(k) + 4) + '"' + (right ? "" : ' text-anchor="end"') + (d.e.chan ? ' style="font-weight:600"' : "") + ">" + esc(cut(d.label, most)) + "</text>";
        }
      }
      o += (noted(d.e) ? '<text class="halo no' + (k === at ? " on" : "") + '" text-anchor="end" x="' + (width - 6) + '" y="' + (y(k) + 4) + '">' + noted(d.e) + "</text>" : "") + "</g>";
    }
    if (bottom >= rows - 1) {
      const f = at === count ? "" : ' class="later"', s = final;
      o += "<g" + f + ">";
      for (const p of s.processes) if (p.moves === 0 && !fault) {
        const x = X(p.proc), is = p.waits.length && p.waits[0].text, ink = is && end.end === "invalid" ? "var(--bad)" : "var(--soft)";
        o += '<rect x="' + (x - 5) + '" y="' + (y(last + 1) - 5) + '" width="10" height="10" rx="2" fill="' + ink + '"/><text class="halo no" x="' + (x + 10) + '" y="' + (y(last + 1) + 4) + '"' + ' style="fill:' + ink + '"' + ">" + esc(cut(is ? tidy(is) : "at its end", W - 20)) + "</text>";
      }
      o += "</g>";
    }
    if (top === 0) o += '<text class="no" x="' + (left - 10) + '" y="' + (y(0) + 4) + '" text-anchor="end">0</text>';
    let svg = $("chart").firstChild;
    if (!svg) { $("chart").innerHTML = "<svg></svg>"; svg = $("chart").firstChild; }
    o += tips; svg.style.top = y0 + "px"; svg.setAttribute("width", width); svg.setAttribute("height", h); svg.innerHTML = o;
  }

  let final = stateAt(count);

  // ---- the panes
  $("source").innerHTML = model.replace(/\n$/, "").split("\n").map((t, i) => '<div class="l" id="L' + (i + 1) + '" tabindex="' + (i ? -1 : 0) + '"><span class="n">' + (i + 1) + '</span><span class="t">' + (esc(t.replace(/\r$/, "").replace(/\r/g, "\u240d")) || " ") + '</span><span class="c"></span></div>').join("");
  let marked = [];
  function source(s, e) {
    for (const l of marked) { l.classList.remove("took"); l.lastChild.innerHTML = ""; l.style.borderLeftColor = ""; }
    marked = [];
    const put = n => { const l = $("L" + n); if (l && !marked.includes(l)) marked.push(l); return l; };
    const there = new Map();
    for (const p of s.processes) { if (!there.has(p.line)) there.set(p.line, []); there.get(p.line).push(p); }
    there.forEach((all, n) => {
      const l = put(n), shown = all.length > 7 ? all.slice(0, 6) : all;
      if (l) l.lastChild.innerHTML = shown.map(p => " " + chip(p.proc, p.moves === 0)).join("") + (shown.length < all.length ? ' <span class="none">+' + (all.length - shown.length) + "</span>" : "");
    });
    if (e) { for (const x of [e, e.to]) if (x) { const l = put(x.line); if (l) { l.classList.add("took"); l.style.borderLeftColor = hue(x.proc); } } }
  }
  // scrolls source and chart to what is shown; before anything is written, so that the page is laid out once
  function follow(line, keep) {
    const target = $("L" + line), box = $("source").parentNode;
    if (target) { const a = target.offsetTop - box.offsetTop, b = box.scrollTop; if (a < b + 20 || a > b + box.clientHeight - 40) box.scrollTop = Math.max(0, a - box.clientHeight / 2); }
    if (!keep) { const v = $("view"), y = R(at) * H; if (y < v.scrollTop + H || y > v.scrollTop + v.clientHeight - 3 * H - 30) v.scrollTop = Math.max(0, y - v.clientHeight * 0.6); }
  }
  const val = (k, v, old, isNew, p) => (v = show(v), old = old === undefined ? old : show(old), isNew = isNew && v !== old, '<button class="v' + (isNew ? " new" : "") + '" data-k="' + esc(k) + '"' + (p === undefined ? "" : ' data-p="' + p + '"') + '>' + esc(k) + " = " + (isNew && old !== undefined ? "<s>" + esc(old) + "</s> " : "") + "<b>" + esc(v) + "</b></button>");
  function vars(now, before, p) {
    const keys = Object.keys(now).filter(k => names[(now[k] || {}).chan - 1] !== k);
    const first = keys.length > 200 ? keys.filter((k, i) => i < 200 || (before && before[k] !== now[k])) : keys;
    return first.map(k => val(k, now[k], before && before[k], !!before, p)).join("") + (keys.length > first.length ? '<span class="none">and ' + (keys.length - first.length) + " more</span>" : "");
  }
  // the first of many, and the others folded away; of these it is said how many changed
  function folding(id, all, most, isNew) {
    if (all.length <= most + 3) return all.join("");
    const rest = all.slice(most), fresh = rest.filter(isNew).length, old = $(id).querySelector("details");
    return all.slice(0, most).join("") + "<details" + (old && old.open ? " open" : "") + "><summary>" + rest.length + " more" + (fresh ? ", " + fresh + " of them changed" : "") + "</summary>" + rest.join("") + "</details>";
  }
  function panes(s, b, e) {
    $("processes").innerHTML = s.processes.map(p => {
      const old = b && b.processes[p.proc], fresh = b && !old;
      const how = p.moves ? (p.moves === 1 ? "can move" : p.moves + " choices") : p.waits.length && p.waits[0].because === "younger" ? "at its end" : "blocked";
      return '<div class="proc' + (p.moves ? " can" : "") + '"><div class="top">' + chip(p.proc, !p.moves) + '<span class="m">' + esc(p.name) + '</span><span class="where">line ' + p.line + '</span><span class="how">' + (fresh ? "new, " : "") + how + "</span></div>" +
        p.waits.map(x => '<div class="why' + (x.text ? "" : " soft") + '">' + (x.line !== p.line ? '<span class="at">line ' + x.line + "</span> " : "") + (x.text ? "<code>" + esc(tidy(x.text)) + "</code> " : "") + esc(x.words) + "</div>").join("") +
        (Object.keys(p.locals).length ? '<div class="vars">' + vars(p.locals, b && (old ? old.locals : cells()), p.proc) + "</div>" : "") + "</div>";
    }).join("") || '<span class="none">none is alive</span>';
    $("a-channels").hidden = !s.channels.length && !start.channels.length;
    const channels = s.channels.map(c => {
      const old = b && b.channels[c.chan - 1], isNew = b && (!old || JSON.stringify(old.messages) !== JSON.stringify(c.messages));
      const slots = c.messages.map(m => '<span class="slot">' + esc(list(m)) + "</span>").join("") + (c.capacity <= 12 ? '<span class="slot free">.</span>'.repeat(c.capacity - c.messages.length) : "");
      return '<div class="chan' + (isNew ? " new" : "") + '"><div class="top"><span class="m">' + esc(c.name || "chan " + c.chan) + '</span><span class="none">{ ' + esc(c.fields.join(", ")) + " }</span><span>" + (c.capacity ? c.messages.length + " of " + c.capacity : "rendezvous") + "</span></div>" + (c.capacity ? '<div class="slots">' + slots + "</div>" : "") + "</div>";
    });
    $("channels").innerHTML = folding("channels", channels, 12, x => x.startsWith('<div class="chan new')) || '<span class="none">none is open</span>';
    $("a-globals").hidden = !vars(s.globals, null);
    $("globals").innerHTML = '<div class="vars">' + vars(s.globals, b && b.globals) + "</div>";
    $("a-printed").hidden = !steps.some(x => x.printed);
    const tail = e && e.printed ? e.printed : "", all = s.printed;
    $("printed").innerHTML = esc(all.slice(0, all.length - tail.length)) + (tail ? "<mark>" + esc(tail) + "</mark>" : "") || '<span class="none">nothing yet</span>';
    if (all) $("printed").scrollTop = 1e6;
  }
  // what a move does with a message, in the words of a session
  const VERBS = { send: ["sends", "to"], receive: ["takes", "from"], read: ["reads", "from"], pass: ["passes", "over"], lose: ["loses", "to"] };
  const effect = m => m.effect || (m.chan && VERBS[m.does] ? VERBS[m.does][0] + " (" + list(m.message) + ") " + VERBS[m.does][1] + " " + named(m.chan) : "");
  // what led to an end that is not valid: who used and who set last what processes wait at, and the round of those that wait for one another
  function past(p) {
    const round = (p.round || []).map((a, i, all) => a + (i ? " for " : " waits for ") + all[(i + 1) % all.length]).join(", ");
    return [...p.used, ...p.set].map(x => "<div>" + esc(x.words) + "</div>").join("") + (round ? '<div class="bad">round: ' + round + "</div>" : "");
  }
  // the moves of the state behind step k: buttons where one walks, and a list of which one was taken where not
  function choices(k) {
    const n = k < count ? steps[k] : fault || null, all = n ? offered(n) : end.choices || [], had = $("moves").contains(document.activeElement);
    const text = m => esc(tidy(place(m))) + (m.to ? "<br>" + esc("\u2192 " + tidy(place(m.to))) : "") + (effect(m) ? ' <span class="none">' + esc(effect(m)) + "</span>" : "");
    const item = (m, i) => { const is = n && i + 1 === n.choice; return "<li" + (is ? ' class="taken">' : ">") + (WALK ? '<button data-k="' + k + '" data-m="' + (i + 1) + '" data-of="' + all.length + '"' + (is ? ' aria-current="step"' : "") + ">" + text(m) + "</button>" : text(m)) + "</li>"; };
    $("h-moves").textContent = all.length > 1 ? "Choices" : all.length ? "Only move" : "No move";
    $("moves").innerHTML = all.length ? '<ol class="moves">' + all.map(item).join("") + "</ol>" : '<span class="none">' + (end.end === "invalid" ? "The run ends here, and not every process may." : "The run ends here.") + "</span>" + (end.past ? '<div class="past">' + past(end.past) + "</div>" : "");
    if (had) ($("moves").querySelector("button") || $("moves")).focus({ preventScroll: true });
    if (WALK) WALK.listed(k === count && !fault ? all : []);
  }
  function place(m) { return "proc " + m.proc + " (" + m.name + ") line " + m.line + " [" + m.text + "]"; }
  function one(e) { return place(e) + (e.to ? " -> " + place(e.to) : ""); }
  function sentence(e) {
    if (!e) return '<span class="none">the first state' + (end.end === "cycle" && !steps.some(s => s.cycle) ? " &middot; the cycle begins" : "") + "</span>";
    return chip(e.proc) + ' <span class="who">' + esc(e.name) + "</span> line " + e.line + " <code>" + esc(tidy(e.text)) + "</code>" + (e.to ? " &rarr; " + chip(e.to.proc) + ' <span class="who">' + esc(e.to.name) + "</span> line " + e.to.line + " <code>" + esc(tidy(e.to.text)) + "</code>" : "") +
      (effect(e) ? ' <span class="none">&middot; ' + esc(effect(e)) + "</span>" : "") + (e.of > 1 ? ' <span class="none">&middot; choice ' + e.choice + " of " + e.of + "</span>" : "") + (noted(e) ? ' <span class="none">&middot; ' + noted(e) + "</span>" : "") +
      (e.same_as !== undefined ? ' <button data-step="' + e.same_as + '">same as step ' + e.same_as + "</button>" : "");
  }
  // a fault that comes next: what its statement read, and what an index, a channel or a number of fields had to do with it
  function failing() {
    return ' <span class="bad">then fault F' + fault.fault + ": " + esc(fault.words) + " at " + esc(tidy(one(fault))) + "</span>" + (fault.reads ? ' <span class="none">&middot; reads: ' + esc(fault.reads) + "</span>" : "") + (fault.about ? ' <span class="none">&middot; ' + esc(fault.about) + "</span>" : "");
  }

  // ---- where to stop
  const stops = [["every step", () => true], ["choices", e => e.of > 1], ["messages", e => e.chan > 0], ["printed text", e => !!e.printed]], kinds = stops.push(...(steps.some(noted) ? [["claims", noted]] : []));
  function listed() {
    const chosen = $("stops").value;
    for (let p = stops.length - kinds; p < Math.min(columns, 60); p++) stops.push(["process " + p + " " + (lives.find(l => l.proc === p) || {}).name, e => e.proc === p || (e.to && e.to.proc === p)]);
    $("stops").innerHTML = stops.map((s, i) => '<option value="' + i + '">' + esc(s[0]) + "</option>").join(""); $("stops").value = chosen && stops[+chosen] ? chosen : "0";
  }
  listed();
  function near(by) {
    const wanted = stops[+$("stops").value][1];
    for (let k = at + by; k > 0 && k <= count; k += by) if (wanted(steps[k - 1])) return k;
    return by < 0 ? 0 : count;
  }
  function strip() {
    const c = $("strip"), w = c.width = Math.max(1, c.clientWidth), g = c.getContext("2d"), style = getComputedStyle(document.documentElement);
    const colours = Array.from({ length: 8 }, (_, i) => style.getPropertyValue("--p" + i));
    g.clearRect(0, 0, w, 5); for (let x = 0; x < w; x++) { const e = steps[Math.min(count - 1, Math.floor(x * count / w))]; if (e) { g.fillStyle = colours[e.proc % 8]; g.globalAlpha = e.of > 1 ? 1 : .45; g.fillRect(x, 0, 1, 5); } }
  }
  // the strip is drawn again once nothing more comes
  let waiting = 0; function later() { clearTimeout(waiting); waiting = setTimeout(strip, 120); }
  // the step that set a variable last: at it or before it
  function setter(k, p) {
    for (let i = at; i > 0; i--) {
      const e = steps[i - 1];
      if (p === undefined ? e.globals && Object.hasOwn(e.globals, k) : (e.processes || []).some(q => q.proc === p && Object.hasOwn(q.locals, k))) return i;
    }
    return 0;
  }

  // ---- moving
  let at = 0, hover = -1;
  function go(k, keep) {
    at = Math.max(0, Math.min(count, Math.floor(k) || 0));
    const s = stateAt(at), b = at > 0 ? stateAt(at - 1) : null, e = at > 0 ? steps[at - 1] : null;
    names = s.channels.map(c => c.name);
    follow(e ? e.line : s.processes.length ? s.processes[0].line : 0, keep);
    draw();
    $("slider").value = at; $("slider").setAttribute("aria-valuetext", "step " + at + " of " + count); $("count").textContent = "step " + at + " of " + count;
    $("first").disabled = $("prev").disabled = at === 0; $("next").disabled = $("last").disabled = at === count;
    $("said").innerHTML = sentence(e) + (at === count && fault ? failing() : "");
    heads(s); source(s, e); choices(at); panes(s, b, e);
    if (WALK) WALK.moved();
    else try { history.replaceState(null, "", "#" + at); } catch (x) { /* a page of a file may not have one */ }
  }
  function told() {
    const open = WALK ? "can go on" : end.end, words = { valid: ["good", "valid end"], invalid: ["bad", "invalid end"], fault: ["bad", fault ? "F" + fault.fault + ": " + fault.words : "fault"], "choices ended": ["mild", open], "step limit": ["mild", open], "claim ended": ["bad", "claim ended"], cycle: ["bad", "cycle"] }[end.end] || ["mild", end.end];
    $("verdict").className = "pill " + words[0]; $("verdict").textContent = words[1]; $("slider").max = count;
  }
  told();
  $("slider").addEventListener("input", () => go(+$("slider").value), heard); $("first").onclick = () => go(0); $("prev").onclick = () => go(near(-1)); $("next").onclick = () => go(near(1)); $("last").onclick = () => go(count);
  document.addEventListener("keydown", x => {
    if (x.ctrlKey || x.metaKey || x.altKey || document.querySelector("dialog[open]")) return;
    if (/^(SELECT|INPUT|TEXTAREA)$/.test(x.target.tagName) && x.target.type !== "range") return;
    const line = x.target.closest(".l"), head = x.target.closest("[data-head]");
    if ((line || head) && (x.key === "Enter" || x.key === " ")) { x.preventDefault(); act(x.target); return; }
    if (line && (x.key === "ArrowUp" || x.key === "ArrowDown")) { const to = x.key === "ArrowUp" ? line.previousSibling : line.nextSibling; if (to) { line.tabIndex = -1; to.tabIndex = 0; to.focus(); } x.preventDefault(); return; }
    if (x.key === "ArrowLeft" || x.key === "ArrowRight") { x.preventDefault(); go(near(x.key === "ArrowLeft" ? -1 : 1)); return; }
    // a pane that has the focus keeps the keys by which it is scrolled
    if (x.target.closest(".scroll, #printed, details")) return;
    const by = { PageUp: -10, PageDown: 10, Home: -count, End: count }[x.key];
    if (by !== undefined) { x.preventDefault(); go(at + by); }
  }, heard);
  // does what a click on a variable, a line of the source or the head of a process does
  function act(it) {
    const v = it.closest(".v"), l = it.closest("#source .l"), h = it.closest("[data-head]");
    if (h) WALK.taken(m => m.proc === +h.dataset.head);
    if (v) { const key = v.dataset.k, p = v.dataset.p; go(setter(key, p === undefined ? undefined : +p)); const again = [...document.querySelectorAll(".v")].find(b => b.dataset.k === key && b.dataset.p === p); if (again) again.focus({ preventScroll: true }); }
    if (!l) return;
    const n = +l.id.slice(1), on = e => e.line === n || (e.to && e.to.line === n); if (WALK && l.classList.contains("open")) { WALK.taken(m => m.line === n); return; }
    for (let i = 1; i <= count; i++) { const k = (at + i - 1) % count + 1; if (on(steps[k - 1])) { go(k); break; } }
  }
  document.querySelector("main").addEventListener("click", x => { if (!(WALK && x.target.closest("#source .n"))) act(x.target); }, heard);
  $("said").addEventListener("click", x => { const to = x.target.closest("[data-step]"); if (to) go(+to.dataset.step); }, heard);
  $("view").addEventListener("scroll", () => requestAnimationFrame(draw), heard);
  const rowOf = x => Math.max(0, Math.min(rows - 1, Math.floor((x.clientY - $("chart").getBoundingClientRect().top) / H)));
  function choose() { layout($("only").checked ? stops[+$("stops").value][1] : null); measure(); go(at); }
  $("stops").addEventListener("change", choose, heard); $("only").addEventListener("change", choose, heard);
  $("chart").addEventListener("click", x => go(stepOf(rowOf(x)), true), heard);
  $("chart").addEventListener("mousemove", x => {
    const row = rowOf(x), k = stepOf(row), e = k > 0 && dots[k - 1] ? dots[k - 1].e : null, tip = $("tip");
    if (row !== hover) { hover = row; draw(); }
    if (!e) { tip.style.display = "none"; return; }
    tip.textContent = "step " + k + ": " + one(e) + (e.of > 1 ? ", choice " + e.choice + " of " + e.of : "") + (e.printed ? ", prints " + JSON.stringify(e.printed) : "") + (noted(e) ? ", " + noted(e) : "") + (e.event === "fault" ? ", fault: " + e.words : "");
    tip.style.display = "block"; tip.style.left = Math.min(x.clientX + 14, innerWidth - tip.offsetWidth - 8) + "px"; tip.style.top = Math.min(x.clientY + 16, innerHeight - tip.offsetHeight - 8) + "px";
  }, heard);
  $("chart").addEventListener("mouseleave", () => { hover = -1; $("tip").style.display = "none"; draw(); }, heard);
  function fit() { headed(); measure(); strip(); go(at); }
  addEventListener("resize", fit, heard);
  matchMedia("(prefers-color-scheme: dark)").addEventListener("change", strip, heard);
  for (const [when, is] of [["beforeprint", true], ["afterprint", false]]) addEventListener(when, () => { isPrinted = is; measure(); draw(); }, heard);
  // more steps behind the last one, and the line that tells where the run stands then
  function extend(more) {
    if (fault) dots.pop(); const was = columns;
    for (const e of more) if (e.event === "step") steps.push(e);
    fault = more.find(e => e.event === "fault"); end = more[more.length - 1]; count = steps.length;
    keep(); chart(); layout($("only").checked ? stops[+$("stops").value][1] : null); final = stateAt(count);
    if (columns !== was) listed();
    told(); measure(); later(); go(count);
  }
  $("chart").innerHTML = ""; at = first === undefined ? count : first; fit();
  return { go, extend, steps, start, at: () => at, end: () => end, fault: () => fault, state: () => stateAt(at) };
}
function headed() { document.documentElement.style.setProperty("--head", document.querySelector("header").offsetHeight + "px"); }
new ResizeObserver(headed).observe(document.querySelector("header"));
$("wide").onclick = () => { $("wide").setAttribute("aria-pressed", document.querySelector("main").classList.toggle("wide")); dispatchEvent(new Event("resize")); };
if (WALK) WALK.begin();
else {
  const step = () => location.hash.length > 1 ? +location.hash.slice(1) || 0 : undefined, run = shown(parsed($("run").textContent), $("source").textContent, step());
  addEventListener("hashchange", () => { const k = step(); if (k !== undefined && k !== run.at()) run.go(k); });
}
</script>
</body>
</html>
"##;
