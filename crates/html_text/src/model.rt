//! The page's script: what it reads, and the state after each event.

/// After the data: the texts, the tokens, the states, and words for them.
pub(crate) const MODEL: &[u8] = br##"</script>
<script>
(function () {
'use strict';
// Bookkeeping only: the data says what each event takes, makes and changes. No rule of the machine stands here.
const $ = id => document.getElementById(id), LATER = 0x7fffffff, NS = 'http://www.w3.org/2000/svg';
function put(e, attrs, kids) {
  for (const k in attrs) { const v = attrs[k]; if (k === 'on') { if (v) e.addEventListener('click', v); } else if (v !== undefined && v !== null &&
      v !== false) e.setAttribute(k, v); }
  for (const c of kids.flat(3)) if (c !== null && c !== undefined && c !== '') e.append(c);
  return e;
}
const el = (tag, attrs, ...kids) => put(document.createElement(tag), attrs, kids),
    sv = (tag, attrs, ...kids) => put(document.createElementNS(NS, tag), attrs, kids);
const fill = (e, ...kids) => { e.replaceChildren(); put(e, {}, kids); };
const many = (n, one, more) => (n ? n.toLocaleString('en') : 'no') + ' ' + (n === 1 ? one : more || one + 's');
function fail(m) { $('app').hidden = false; $('bad').hidden = false; $('bad').append(m + ' '); }

// ---- the static part stands as text in the page
// The events stay text, each a packed string on a line, and are unpacked only where they are shown.
const TEXT = $('data').textContent, HEAD = TEXT.indexOf('"changes":[') + 11, AFTER = TEXT.indexOf('],"next":', HEAD),
    BODY = TEXT.indexOf('"events":[', AFTER) + 10;
const UNITS = /^(\D)(\d*),?(\d*)(.*)$/;  // a letter, up to two numbers, and the rest: words behind colons, or the state of a slot
function unpackToken(s) {
  const [, tag, a, b, rest] = UNITS.exec(s), w = rest.split(':').slice(1);
  return tag === 'l' || tag === 'r' ? ['i', +a, +b, tag, w[0]] : tag === 'q' ? ['q', w[0]] : [tag, +a, ...w];
}
const unpackTokens = list => list.filter(t => t).map(unpackToken);
const unpackState = s => !s ? null : s[1] === ':' ? [s[0], s.slice(2)] : [s[0], +s.slice(1)];
function unpackChange(s) {
  if (!s) return null;
  const [, tag, a, b, rest] = UNITS.exec(s);
  return tag === 's' ? ['s', +a, +b, unpackState(rest)] : tag === 'q' ? ['q', rest.slice(1)] : [tag, +a, ...rest.split(':').slice(1)];
}
let D;
try { D = JSON.parse(TEXT.slice(0, HEAD) + TEXT.slice(AFTER, BODY) + ']}'); } catch (x) { fail('The data cannot be read: ' + x.message); return; }
D.start = unpackTokens(D.start.split(';'));
const CODE = [], BLOCKS = [], ARRAYS = [];
let MAIN = 0, CELLS = 0;
for (const line of $('listing').textContent.split('\n')) {
  const w = line.trim().split(/\s+/);
  if (w[0] === 'ets') MAIN = +w[3];
  else if (w[0] === 'block') BLOCKS.push({n: BLOCKS.length, first: CODE.length, ins: +w[3], outs: +w[5], slots: +w[7], code: [], name: '',
      view: [], lays: {}});
  else if (w[0] === 'array') ARRAYS.push({n: ARRAYS.length, len: +w[2], name: 'array ' + w[1]});
  else if (/^\d+$/.test(w[0]) && BLOCKS.length) {
    const b = BLOCKS[BLOCKS.length - 1], ip = CODE.length;
    const d = s => s === '-' ? null : {ip: ip + parseInt(s.slice(1), 10), port: s[s.length - 1]};
    const i = {ip: ip, b: b.n, k: +w[0], name: w[1], slot: w[2] === '-' ? null : +w[2], d: [d(w[3]), d(w[4])], op: w[5] === '-' ? '' : w[5], two: false,
        quiet: /^(copy|sync|send)$/.test(w[1])};
    b.code.push(i); CODE.push(i);
  }
}
{ // names from the graph text; the code of iterations stands behind the plain code, in the same order
  const names = [], loops = new Set(), arrays = [];
  for (const line of $('source').textContent.split('\n')) {
    const w = line.split(' ');
    if (w[0] === 'block') names.push(w[1]);
    else if (w[0] === 'array') arrays.push(w[1]);
    else if (w[1] === 'loop') loops.add(w[2]);
  }
  const all = names.concat(names.filter(n => loops.has(n)).map(n => n + ', an iteration'));
  if (all.length === BLOCKS.length) BLOCKS.forEach((b, i) => { b.name = all[i]; });
  if (arrays.length === ARRAYS.length) ARRAYS.forEach((a, i) => { a.name = arrays[i]; });
  for (const a of ARRAYS) { a.base = CELLS; CELLS += a.len; }
}
for (const i of CODE) for (const d of i.d) if (d && d.port === 'r' && CODE[d.ip]) CODE[d.ip].two = true;
const bname = b => 'block ' + b.n + (b.name ? ' (' + b.name + ')' : '');
const HELP = {sync: 'Waits for both tokens, then sends a signal (0).', switch: 'Sends its left word to T if its right value is true, else to F.',
    lit: 'Gives its literal when a token comes.', copy: 'Passes its word on.',
  fetch: 'Reads the cell at the index that comes; the answer goes to its destination.',
      store: 'Fills the cell at its left index with its right value.', frame: 'Asks the manager for a free frame.',
  link: 'Tells the new frame where results are to go.', send: 'Sends its right word to an entry of a block, in the frame that came on the left.',
      return: 'Sends its right value to the continuation that came on the left.',
  ask: 'Asks the loop for a credit.', open: 'Opens the credits of a loop.', take: 'Takes a credit for the next iteration, or waits for one.',
      give: 'Gets a credit back from an iteration that is over.', drain: 'Waits until all credits of the loop are back.',
      release: 'Gives the frame back, and tells so.'};

// ---- the events are read once, from end to end. Of each event, change and token a few numbers are kept. Tokens are counted here from 0 on: first
// those that are there before the first event, then all that are made, in order. Changes are those of the earlier events, then those of the events.
let BYTES = new TextEncoder().encode(TEXT), here = HEAD, made = 0;
function lines(from, to) { let k = 0; for (let i = from; i < to; i++) if (BYTES[i] === 10) k++; return k; }
const E = D.elements, K = lines(HEAD, AFTER), N = lines(BODY, BYTES.length) - 1, START = D.start.length, no = n => D.first + n;
const LINE = new Int32Array(K + N + 1);  // where in the text the string of a change or an event begins
const TAG = new Uint8Array(K + N), PLACE = new Int32Array(K + N), WAS = new Int32Array(K + N), HOLDS = new Uint8Array(K + N);
// of a change: its letter, what it changes, the change of that before, and the letter of the state that a slot has then
const ELEMENT = new Uint16Array(N), TAKES = new Int32Array(N), KIND = new Uint8Array(N), FIRST = new Int32Array(N + 2);
let TYPE = new Uint8Array(START + 2 * N + 64), TO = new Int32Array(TYPE.length), IP = new Int32Array(TYPE.length), MADE = new Int32Array(TYPE.length),
    TAKEN = new Int32Array(TYPE.length);
const letter = s => s.charCodeAt(0), INSTR = letter('i'), READ = letter('f'), WRITE = letter('s'), BACK = letter('b'), HOST = letter('h');
const LEFT = letter('l'), RIGHT = letter('r'), SLOT = letter('s'), EMPTIED = letter('e'), FILLED = letter('v'), READER = letter('+'), OUT = letter('o'), FREED = letter('f'),
    QUEUED = letter('q'), HANDED = letter('h'), OUTPUT = letter('p'), CREDITS = letter('c'), ASKS = letter('w'), NONE = -2,
    NEXT = letter(';'), QUOTE = letter('"'), MINUS = letter('-');
const KINDS = ['fired', 'waited', 'memory', 'defer', 'manager', 'host'], KIND_OF = new Uint8Array(128);
['f', 'w', 'asv', 'dq', 'gbh', 'o'].forEach((list, k) => { for (const deed of list) KIND_OF[letter(deed)] = k; });
function pass(c) { let i = here; while (BYTES[i] !== c && i < BYTES.length) i++; here = i + 1; }
function toEnd() { let i = here; while (BYTES[i] !== NEXT && BYTES[i] !== QUOTE && i < BYTES.length) i++; here = i; }  // of this part of a string
function number() { let x = 0, i = here, c = BYTES[i]; while (c > 47 && c < 58) { x = 10 * x + c - 48; c = BYTES[++i]; } here = i; return x; }
function signed() { if (BYTES[here] !== MINUS) return number(); here++; return -number(); }
const isEnd = () => BYTES[here] === NEXT || BYTES[here] === QUOTE;
function readChange(k) {
  if (isEnd()) return;
  let tag = BYTES[here++];
  if (tag !== QUEUED) PLACE[k] = number();
  if (tag === SLOT) {
    here++; PLACE[k] = skey(PLACE[k], number());
    if (isEnd()) tag = EMPTIED; else HOLDS[k] = BYTES[here];
  }
  toEnd();
  TAG[k] = tag;
}
function grow() {
  const longer = a => { const b = new a.constructor(2 * a.length); b.set(a); return b; };
  TYPE = longer(TYPE); TO = longer(TO); IP = longer(IP); MADE = longer(MADE); TAKEN = longer(TAKEN);
}
function enter(type, to, ip, n) {  // a token that event n makes
  if (made === TYPE.length) grow();
  TYPE[made] = type; TO[made] = to; IP[made] = ip; MADE[made] = n; TAKEN[made++] = LATER;
  if (ip >= 0 && CODE[ip]) {  // a frame belongs to the block that its tokens are for
    BLOCKS[CODE[ip].b].used = true;
    if (unowned.size && unowned.has(to)) { OWNER.set(unowned.get(to), [CODE[ip].b, n]); unowned.delete(to); }
  }
}
function readTokens(n) {
  while (BYTES[here] !== QUOTE && here < BYTES.length) {
    const c = BYTES[here++], type = c === LEFT || c === RIGHT ? INSTR : c, to = type === QUEUED ? 0 : number();
    if (type === INSTR) here++;
    enter(type, to, type === INSTR ? number() : -1, n);
    toEnd();
    if (BYTES[here] === NEXT) here++;
  }
}
function readEvent(n) {
  pass(10);
  LINE[K + n] = ++here;
  ELEMENT[n] = number();
  KIND[n] = KIND_OF[BYTES[here++]];
  const k = no(n) + signed(), t = TAKES[n] = k >= D.next ? START + k - D.next : EARLY.get(k);
  if (t === undefined || t >= made || TAKEN[t] !== LATER) return false;
  TAKEN[t] = n; FIRST[n] = made; here++;
  readChange(K + n);
  if (HOLDS[K + n] === CREDITS) KIND[n] = 0;
  here++;
  return true;
}

// ---- the state: of each place that is not as at the start, the last change
const skey = (f, r) => f * 512 + r, SNAP = [], REQ = [];  // copies of the state; the changes by which requests queued
const OWNER = new Map(), unowned = new Map();  // by the change that gives a frame out: its block, and the event that shows it. Frame 0 has change -1
const fresh = () => ({slots: new Map(), cells: new Map(), out: new Map(), outs: new Map(), queued: 0, served: 0});
function storeOf(s, tag) {
  switch (tag) {
    case SLOT: case EMPTIED: return s.slots;
    case FILLED: case READER: return s.cells;
    case OUT: case FREED: case HANDED: return s.out;
    case OUTPUT: return s.outs;
  }
}
function apply(s, c) {
  const tag = TAG[c], store = storeOf(s, tag);
  if (store) if (tag === EMPTIED || tag === FREED) store.delete(PLACE[c]); else store.set(PLACE[c], c);
  if (tag === QUEUED) s.queued++; else if (tag === HANDED) s.served++;
}
function undo(s, c) {
  const tag = TAG[c], store = storeOf(s, tag);
  if (store) if (WAS[c] === NONE) store.delete(PLACE[c]); else store.set(PLACE[c], WAS[c]);
  if (tag === QUEUED) s.queued--; else if (tag === HANDED) s.served--;
}
function note(s, c) {  // a change that is read
  const tag = TAG[c], store = storeOf(s, tag), was = store && store.get(PLACE[c]);
  WAS[c] = was === undefined ? NONE : was;
  if (tag === QUEUED) REQ.push(c); else if (tag === OUT || tag === HANDED) unowned.set(PLACE[c], c); else if (tag === FREED) unowned.delete(PLACE[c]);
  apply(s, c);
}
const STORES = ['slots', 'cells', 'out', 'outs'], weight = s => s.slots.size + s.cells.size + s.out.size + s.outs.size;
function keep(n, s) {
  const flat = new Int32Array(2 * weight(s)), sizes = STORES.map(k => s[k].size);
  let i = 0;
  for (const k of STORES) s[k].forEach((c, p) => { flat[i++] = p; flat[i++] = c; });
  SNAP.push({n: n, flat: flat, sizes: sizes, queued: s.queued, served: s.served});
}
function restore(from) {
  const s = fresh();
  let i = 0;
  STORES.forEach((k, x) => { for (let left = from.sizes[x]; left > 0; left--, i += 2) s[k].set(from.flat[i], from.flat[i + 1]); });
  s.queued = from.queued; s.served = from.served;
  return {n: from.n, s: s};
}
const WAVE = new Int32Array(N);
function waveOf(s, n) {  // of event n, before its change: one more than that of the events that it needs. Those are of the page
  const c = K + n, t = TAKES[n], tag = TAG[c], read = TYPE[t] === READ ? s.cells.get(TO[t]) : undefined;
  let w = MADE[t] < 0 ? 0 : WAVE[MADE[t]];
  const needs = c => { if (c >= K && WAVE[c - K] > w) w = WAVE[c - K]; };
  if (read !== undefined && TAG[read] === FILLED) needs(read);  // what filled the cell
  if (tag === SLOT || tag === EMPTIED) { const held = s.slots.get(PLACE[c]); if (held !== undefined) needs(held); }
  if (tag === FILLED) readersOf(s.cells.has(PLACE[c]) ? s.cells.get(PLACE[c]) : -1).forEach(needs);
  if (tag === HANDED) needs(REQ[s.served]);
  return w + 1;
}
const EARLY = new Map(D.numbers.map((k, i) => [k, i])), EVERY = 2048;
let TOP = START, cur = {n: -1, s: fresh()};
for (const f of D.out) { cur.s.out.set(f, -1); unowned.set(f, -1); }
for (let c = 0; c < K; c++) { pass(10); LINE[c] = ++here; readChange(c); note(cur.s, c); }
for (const t of D.start) enter(letter(t[0]), t[0] === 'q' ? 0 : t[1], t[0] === 'i' ? t[2] : -1, -1);
keep(-1, cur.s);
here = BODY;
for (let n = 0; n < N; n++) {
  if (!readEvent(n)) { fail('Event ' + no(n) + ' takes a token that is not there.'); return; }
  WAVE[n] = waveOf(cur.s, n);
  note(cur.s, K + n);
  readTokens(n);
  if (made - n - 1 > TOP) TOP = made - n - 1;
  cur.n = n;
  if (n - SNAP[SNAP.length - 1].n >= Math.max(EVERY, weight(cur.s))) keep(n, cur.s);
}
pass(10);
LINE[K + N] = here + 2; FIRST[N] = FIRST[N + 1] = made; BYTES = null;
const ALL = made;  // all tokens
if (!BLOCKS.some(b => b.used)) BLOCKS[MAIN].used = true;  // Main's code is shown where no token is for any
function stateAt(n) {
  let a = 0, b = SNAP.length - 1;
  while (a < b) { const m = (a + b + 1) >> 1; if (SNAP[m].n <= n) a = m; else b = m - 1; }
  if (Math.abs(n - cur.n) > n - SNAP[a].n + SNAP[a].flat.length / 2) cur = restore(SNAP[a]);
  while (cur.n < n) apply(cur.s, K + ++cur.n);
  while (cur.n > n) undo(cur.s, K + cur.n--);
  return cur.s;
}

// ---- what is read again where it is shown
const SEEN = new Map();
function lineOf(c) {
  let v = SEEN.get(c);
  if (v !== undefined) return v;
  if (SEEN.size > 9999) SEEN.clear();
  const s = TEXT.slice(LINE[c], c === K - 1 ? AFTER - 1 : LINE[c + 1] - 4), [head, change, ...made] = s.split(';');
  v = c < K ? {change: unpackChange(s)} : {element: parseInt(head, 10), change: unpackChange(change), made: unpackTokens(made)};
  SEEN.set(c, v);
  return v;
}
const eventOf = n => lineOf(K + n), changeOf = c => lineOf(c).change;
const tokenOf = t => t < START ? D.start[t] : eventOf(MADE[t]).made[t - FIRST[MADE[t]]], takenBy = n => tokenOf(TAKES[n]);
const numberOf = t => t < START ? D.numbers[t] : D.next + t - START;
const born = n => n < 0 ? START : FIRST[n + 1];  // how many tokens there have been after event n
const ipOf = n => n < 0 ? -1 : IP[TAKES[n]], stateOf = c => c < 0 ? null : changeOf(c)[3];
const blockOf = (c, n) => { const o = OWNER.get(c); return o && o[1] <= n ? BLOCKS[o[0]] : null; };  // of a frame that this change gave out
function readersOf(c) { const list = []; for (; c >= 0 && TAG[c] === READER; c = WAS[c]) list.push(c); return list.reverse(); }
const LAST = new Int32Array((ALL >> 10) + 1);  // of each 1,024 tokens, when the last is taken
for (let t = 0; t < ALL; t++) if (TAKEN[t] > LAST[t >> 10]) LAST[t >> 10] = TAKEN[t];
function onTheWay(n) {
  const pool = [], end = born(n);
  for (let t = 0; t < end; t++) {
    while (LAST[t >> 10] <= n && t < end) t = ((t >> 10) + 1) << 10;
    if (t < end && TAKEN[t] > n) pool.push(t);
  }
  return pool;
}

// ---- words in words
const SIDE = {l: 'left', r: 'right'};
const name = ip => CODE[ip] ? CODE[ip].name : 'instruction ' + ip, at = ip => CODE[ip] ? CODE[ip].b + '.' + CODE[ip].k : '?';
function word(w) {
  const p = String(w).split(' ');
  if (p[0] !== 'to') return String(w);
  return 'the continuation \u201c' + (p[1] === 'host' ? 'host' + (p[2] === '0' ? '' : ', port ' + p[2]) :
      name(+p[2]) + ' (' + at(+p[2]) + '), frame ' + p[1]) + '\u201d';
}
function short(w) {
  const p = String(w).split(' ');
  if (p[0] === 'to') return p[1] === 'host' ? '\u21a9host' : '\u21a9' + p[1] + ':' + at(+p[2]);
  return p[0] === 'fault' ? 'fault ' + p[1] : String(w);
}
const brief = (w, m) => { const s = short(w); return s.length > (m || 9) ? s.slice(0, (m || 9) - 4) + '\u2026' + s.slice(-3) : s; };
function cell(x) { for (const a of ARRAYS) if (x < a.base + a.len) return a.name + '[' + (x - a.base) + ']'; return 'cell ' + x; }
const carries = t => t[0] === 'i' ? t[4] : t[0] === 'q' ? t[1] : t[0] === 'b' ? 'frame ' + t[1] : t[2];
function whereTo(t, f) {
  switch (t[0]) {
    case 'i': return name(t[2]) + ' (' + at(t[2]) + '), ' + SIDE[t[3]] + (t[1] === f ? '' : ', of frame ' + t[1]);
    case 'f': return 'a read of cell ' + cell(t[1]);
    case 's': return 'a write to cell ' + cell(t[1]);
    case 'q': return 'a request for a frame';
    case 'b': return 'the frame manager';
    default: return t[1] < BLOCKS[MAIN].outs ? 'the host, as output ' + t[1] : 'the host: all is done';
  }
}
function goes(t, f) {
  switch (t[0]) {
    case 'f': return 'a read goes to cell ' + cell(t[1]);
    case 's': return 'a write of ' + t[2] + ' goes to cell ' + cell(t[1]);
    case 'q': return 'a request for a frame goes to the manager';
    case 'b': return 'frame ' + t[1] + ' goes back to the manager';
    case 'h': return t[1] < BLOCKS[MAIN].outs ? word(t[2]) + ' goes to the host as output ' + t[1] : 'the host will be told that all is done';
    default: return word(t[4]) + ' goes to ' + whereTo(t, f);
  }
}
function stands(s) {
  if (!s) return 'empty';
  switch (s[0]) {
    case 'c': return many(s[1], 'credit');
    case 'w': return 'a request for a credit, from ' + word(s[1]);
    case 'd': return 'a drain, for ' + many(s[1], 'credit');
    default: return word(s[1]) + ' on the ' + SIDE[s[0]];
  }
}
function frameOf(n) {  // the frame that an event is of, or that its token came from
  for (let k = 0; n >= 0 && k < 40; k++) { const t = TAKES[n]; if (TYPE[t] === INSTR) return TO[t]; n = MADE[t]; }
  return START && D.start[0][0] === 'i' ? D.start[0][1] : 0;
}
function sentence(n) {
  if (n < 0) return ['Before ' + (D.first ? 'event ' + D.first : 'the first event') + ': ', many(START, 'token'), START === 1 ? ' is' : ' are',
      ' on the way: ', D.start.slice(0, 18).map(t => word(carries(t)) + ' to ' + whereTo(t, D.first ? -1 : t[1])).join('; '), START > 18 ?
      '; and ' + (START - 18) + ' more.' : '.'];
  const {element: e, change: c, made} = eventOf(n), t = takenBy(n), b = s => el('b', {}, s), out = [], was = WAS[K + n], f = t[0] === 'i' ? t[1] : -1;
  out.push(b('Event ' + no(n)), ', element ' + e);
  switch (t[0]) {
    case 'i': {
      const i = CODE[t[2]], two = i && i.two;
      out.push(', frame ' + f + ': ', b(name(t[2]) + ' (' + at(t[2]) + ')'), inLine(t[2]), ' takes ', b(word(t[4])), two || t[3] === 'r' ?
          ' on its ' + SIDE[t[3]] + ' port' : '');
      if (i && /^[rl]#/.test(i.op)) out.push(', and has ' + i.op.slice(2) + ' as its ' + SIDE[i.op[0]] + ' operand');
      if (c && c[0] === 's') {
        const p = stateOf(was), q = c[3], side = x => x && (x[0] === 'l' || x[0] === 'r');
        if (side(q) && !p) out.push('; slot ' + c[2] + ' was empty, so it waits there, on the ' + SIDE[q[0]]);
        else if (side(p) && !q) out.push('; ', b(word(p[1])), ' waited on the ' + SIDE[p[0]] + ' in slot ' + c[2] + '; the slot is empty again');
        else out.push('; slot ' + c[2] + (p ? ' had ' + stands(p) : ' was empty') + ', and now ' + (q ? 'has ' + stands(q) : 'is empty again'));
      }
      break;
    }
    case 'f': out.push(': cell ', b(cell(t[1])), ' is read');
      if (c) out.push('; it is empty, so the read waits there' + (was >= 0 ? ', behind ' + many(readersOf(was).length, 'other') : ''),
          '; the answer is for ' + word(t[2]));
      else out.push('; it is full'); break;
    case 's': { const waited = readersOf(was).length; out.push(': ', b(t[2]), ' is written to cell ', b(cell(t[1])));
      out.push(waited ? '; ' + many(waited, 'read that waited is', 'reads that waited are') + ' answered' : '; no read waited'); break; }
    case 'q': out.push(': the ', b('frame manager'), ' is asked for a frame, for ' + word(t[1]));
      out.push(c && c[0] === 'q' ? '; none is free, so the request waits' : c ? '; frame ' + c[1] + ' is in use from now on' : ''); break;
    case 'b': out.push(': the ', b('frame manager'), ' gets frame ' + t[1] + ' back');
      out.push(c && c[0] === 'h' ? '; the request that waited longest gets it' : '; it is free'); break;
    default: out.push(': the ', b('host'), ' gets ', t[1] < BLOCKS[MAIN].outs ? [b(word(t[2])), ' as output ' + t[1]] : 'the signal that all is done');
  }
  out.push(made.length ? '; ' + made.map(m => goes(m, f)).join('; ') : t[0] === 'i' && !(c && c[3] && (c[3][0] === 'l' || c[3][0] === 'r')) ?
      '; nothing is made' : '', '.');
  return out;
}
const REPORT = $('report').textContent.trim().split('\n'), END = (REPORT[REPORT.length - 1] || '').replace(/^end /, '');
function ending() {
  const w = END.split(' ');
  const say = {Rest: 'no token is left, and no request waits',
      Starved: 'no token is left, but a request for a frame or a credit waits, and nothing can serve it',
      Clash: 'the token that would be next is a write, and cell ' + w[1] + '[' + w[2] + '] is full already',
    Steps: 'the events that were allowed are used up; tokens are still on their way',
        Stuck: 'the next token meets a case that the machine excludes (rule ' + w[1] + ')', Memory: 'memory was refused'}[w[0]];
  return el('span', {class: 'end' + (w[0] === 'Rest' ? ' ok' : '')}, 'The run ends here: ' + END + (say ?
      '. ' + say[0].toUpperCase() + say.slice(1) + '.' : ''));
}

"##;
