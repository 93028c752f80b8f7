//! The page's script: the text beside the code.

/// The pane with the program or the graph: what it shows, and what is marked in it.
pub(crate) const BESIDE: &[u8] =
    br##"// ---- the text beside the code: the program, or else the graph. A spot is a place in it for which instructions were made.
const PARTS = $('parts') && JSON.parse($('parts').textContent), TEXTS = [], ROOM = 1200;
const OWNERS = !PARTS || !PARTS.owners ? [] : PARTS.owners.split(';').map(o => { const [, b, turns, part, k] = /^(\d+)(\+?)(.)(\d*)$/.exec(o);
    return {b: +b, turns: turns !== '', part: part, k: +k}; });
const isOfNode = (o, ins) => (o.part === 'n' || o.part === 'j') && o.k >= ins;
function makeText(name, bytes, placeOf, extent) {  // placeOf: of an owner; extent: where the token at a place ends, and where all of it does
  const text = {name: name, lines: [], spots: new Map(), of: []}, decoder = new TextDecoder();
  const read = (a, z) => decoder.decode(bytes.subarray(a, z)).replace(/[\0-\x08\x0b-\x1f\x7f]/g, c => c === '\r' ? '' : '\ufffd');
  OWNERS.forEach((o, ip) => {
    const p = placeOf(o);
    if (!(p < bytes.length)) return;
    if (!text.spots.has(p)) { const [token, end] = extent(p); text.spots.set(p, {text: text, at: p, token: token, end: end, ips: []}); }
    text.of[ip] = text.spots.get(p); text.of[ip].ips.push(ip);
  });
  const cuts = [...new Set([...text.spots.values()].flatMap(s => [s.at, s.token, s.end]))].sort((a, b) => a - b);
  for (let a = 0, k = 0; a < bytes.length;) {
    let end = bytes.indexOf(10, a), pieces = [];
    if (end < 0) end = bytes.length;
    text.lines.push(pieces);
    for (let p = a, q; p < end; p = q) {
      while (cuts[k] <= p) k++;
      q = Math.min(end, k < cuts.length ? cuts[k] : end);
      const spot = text.spots.get(p);
      if (spot) { spot.line = text.lines.length; spot.column = p - a + 1; spot.name = 'line ' + spot.line + ': ' + read(p, Math.min(end, spot.token)).slice(0, 40); }
      pieces.push({s: read(p, q), at: p, spot: spot});
    }
    a = end + 1;
  }
  TEXTS.push(text);
}
function makeProgram() {
  const latin = PARTS.program.replace(/%(..)/g, (_, h) => String.fromCharCode(parseInt(h, 16))), token = /\w+|->|:=|<<|>>|==|!=|<=|>=|[^]/y;
  const closing = i => {  // the end of what the bracket at i begins
    let depth = 0;
    for (const m of latin.slice(i).matchAll(/\/\/.*|[([{]|[)\]}]/g)) {
      if (m[0][0] !== '/') depth += /[([{]/.test(m[0]) ? 1 : -1;
      if (!depth) return i + m.index + 1;
    }
    return i + 1;
  };
  makeText('program', Uint8Array.from(latin, c => c.charCodeAt(0)),
    o => { const p = PARTS.places[o.b]; return !p ? NaN : isOfNode(o, p[1]) ? p[2 + o.k - p[1]] : p[0]; },
    i => { token.lastIndex = i; const w = token.exec(latin)[0], end = i + w.length, isOpen = /^[A-Za-z_]/.test(w) && w !== 'if' && w !== 'loop' && /[([]/.test(latin[end]);
        return [end, isOpen ? closing(end) : end]; });
  // names of loops: their function, and the line of the word `loop`
  const of = b => TEXTS[0].of[b.first], loops = BLOCKS.filter(b => of(b) && latin.slice(of(b).at, of(b).token) === 'loop');
  for (const b of loops) {
    const s = of(b), [, name, , turn] = /^(.*?)(__\d+)?(, an iteration)?$/.exec(b.name), isOne = loops.every(c => of(c).line !== s.line || of(c) === s);
    b.was = b.name; b.name = name + ', loop in line ' + s.line + (isOne ? '' : ', column ' + s.column) + (turn || '');
  }
}
function makeGraph() {
  const source = $('source').textContent, rows = [];  // of each block where its line, those of its nodes, and that of its outputs begin
  let at = 0, b = null;
  for (const line of source.split('\n')) {
    const w = line.split(' ');
    if (w[0] === 'block') rows.push(b = {at: at, ins: +w[2], nodes: [], out: at});
    else if (w[0] === 'out' && b) { b.out = at; b = null; } else if (b) b.nodes.push(at);
    at += line.length + 1;
  }
  const end = i => { const k = source.indexOf('\n', i); return k < 0 ? source.length : k; };
  makeText('graph', new TextEncoder().encode(source),
    o => { const b = rows[o.b]; return !b ? NaN : isOfNode(o, b.ins) ? b.nodes[o.k - b.ins] : /[otr]/.test(o.part) ? b.out : b.at; }, i => [end(i), end(i)]);
}
if (OWNERS.length === CODE.length && CODE.length) {
  if (PARTS.places) makeProgram();
  makeGraph();
  fill($('tsel'), TEXTS.map(t => el('option', {value: t.name}, t.name)), el('option', {value: ''}, 'none'));
  $('same').prepend(el('option', {value: 'spot'}, TEXTS[0].name === 'program' ? 'this expression' : 'this line'));
  $('same').value = 'instruction';
  $('tlabel').hidden = $('tkey').hidden = false;
}
const spotOf = ip => TEXTS.length ? TEXTS[0].of[ip] : undefined;
const inLine = ip => TEXTS.length > 1 && spotOf(ip) ? ', of line ' + spotOf(ip).line + ',' : '';
const ofSpot = s => s.found = s.found || {name: s.name, has: n => ipOf(n) >= 0 && s.text.of[ipOf(n)] === s};
const ofLine = k => ({name: 'line ' + k, has: n => { const s = text && ipOf(n) >= 0 && text.of[ipOf(n)]; return !!s && s.line === k; }});
function actor(n) {  // the instruction that acts, or that made what is taken
  for (let k = 0; n >= 0 && k < 40; k++) { if (ipOf(n) >= 0) return ipOf(n); n = MADE[TAKES[n]]; }
  return -1;
}
function waiting(s, tell) {  // what waits: of which instruction, which token, and where. Of the events before the page's first nothing is known
  s.slots.forEach((c, k) => { if (c >= K && HOLDS[c] !== CREDITS) tell(ipOf(c - K), TAKES[c - K], 'in slot ' + k % 512 + ' of frame ' + Math.floor(k / 512)); });
  s.cells.forEach((v, x) => { if (TAG[v] === READER) for (const c of readersOf(v)) if (c >= K) tell(actor(c - K), TAKES[c - K], 'for cell ' + cell(x)); });
  for (let k = s.served; k < s.queued; k++) if (REQ[k] >= K) tell(actor(REQ[k] - K), TAKES[REQ[k] - K], 'for a frame');
}
let text = TEXTS[0] || null, drawnText = null, inView = [0, 0], rows = new Map(), inked = [];
function drawText(line) {  // the lines around this one
  if (drawnText === text && line > inView[0] && line <= inView[1]) return;
  const all = text.lines.length, a = Math.max(0, Math.min(all - ROOM, line - ROOM / 2)), z = Math.min(all, a + ROOM), isProgram = text.name === 'program';
  drawnText = text; inView = [a, z]; rows = new Map(); inked = [];
  for (const s of text.spots.values()) s.es = [];
  const under = [...text.spots.values()].filter(s => s.end > s.token);
  fill($('text'), a ? el('div', {class: 'none'}, many(a, 'line') + ' above') : '', text.lines.slice(a, z).map((pieces, i) => {
    const k = a + i + 1, row = {waits: el('span', {class: 'lw'})};
    row.e = el('div', {class: 'ln'}, row.waits, el('span', {class: 'no'}, k), el('code', {}, pieces.map(p => {
      const s = p.spot, e = el('span', !s ? {} : {class: 'spot', role: 'button', tabindex: 0, on: () => showFound(ofSpot(s), s),
          'aria-label': s.name + ', ' + many(s.ips.length, 'instruction'), title: s.name + ': ' + many(s.ips.length, 'instruction')}, p.s);
      if (s) s.e = e;
      for (const u of s ? under.concat(s) : under) if (u.at <= p.at && p.at < u.end) u.es.push(e);
      return e;
    })));
    rows.set(k, row);
    return row.e;
  }), z < all ? el('div', {class: 'none'}, many(all - z, 'line') + ' below') : '');
  $('tname').textContent = isProgram ? 'Program' : 'Graph';
  $('text').className = 'mono ' + text.name;
}
function beside(n, s) {  // marks the place of the event, and what waits
  $('beside').hidden = !text;
  $('cols').classList.toggle('three', !!text); $('app').classList.toggle('text', !!text);
  if (!text) return;
  const ip = actor(n), spot = text.of[ip], per = new Map();
  drawText(spot ? spot.line : inView[0] + 1);
  for (const [e, c] of inked) if (c) e.classList.remove(c); else { e.textContent = ''; e.removeAttribute('title'); }
  for (const e of $('text').querySelectorAll('[aria-current]')) e.removeAttribute('aria-current');
  inked = [];
  const ink = (e, c) => { if (e) { e.classList.add(c); inked.push([e, c]); } };
  waiting(s, w => { const t = text.of[w], row = t && rows.get(t.line); if (row) { ink(t.e, 'wait'); per.set(row, (per.get(row) || 0) + 1); } });
  per.forEach((k, row) => { row.waits.textContent = k; row.waits.title = many(k, 'word waits', 'words wait') + ' in this line'; inked.push([row.waits, '']); });
  if (spot && rows.has(spot.line)) {
    ink(rows.get(spot.line).e, 'cur');
    for (const e of spot.es) ink(e, 'in');
    ink(spot.e, ipOf(n) >= 0 ? 'act' : 'from');
    if (spot.e) spot.e.setAttribute('aria-current', 'true');
  }
  $('tmark').textContent = !spot ? '' : ipOf(n) >= 0 ? 'line ' + spot.line : 'from line ' + spot.line;
}
function revealLine(n) {
  const spot = text && text.of[actor(n)], row = spot && rows.get(spot.line), box = $('text');
  if (row && (row.e.offsetTop < box.scrollTop + 20 || row.e.offsetTop + row.e.offsetHeight > box.scrollTop + box.clientHeight - 20))
    return [[box, 'scrollTop', row.e.offsetTop - box.clientHeight / 2]];
  return [];
}
function spotInfo(spot, n) {  // the instructions of a place, and what waits of them
  const list = [];
  waiting(stateAt(n), (ip, t, where) => { if (spot.text.of[ip] === spot) list.push(el('li', {}, tokButton(t, 'wait'), el('span', {class: 'to'}, ' ' + name(ip) + ' (' + at(ip) + '), ' + where))); });
  return [el('div', {}, spot.ips.slice(0, 24).map(ip => [el('button', {class: 'ev', on: () => choose({ip: ip, of: ofInstruction(ip)})}, at(ip) + ' ' + name(ip)), ' ']),
      spot.ips.length > 24 ? '\u2026' : ''), el('div', {}, many(list.length, 'word waits', 'words wait') + (list.length ? ':' : '.')), el('ul', {class: 'list'}, list.slice(0, 12),
      list.length > 12 ? el('li', {class: 'none'}, 'and ' + (list.length - 12) + ' more') : '')];
}
function setText(k) { text = TEXTS[k] || null; $('tsel').value = text ? text.name : ''; show(); scale(); }
$('tsel').onchange = () => setText(TEXTS.findIndex(t => t.name === $('tsel').value));

"##;
